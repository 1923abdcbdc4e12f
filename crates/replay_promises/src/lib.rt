// What is promised of replays, proved of the definitions alone. There is no code here: crates/stream_promises has it of any stream
// whose records keep some laws, and those of a day keep them (proofs/Laws.antt). What is a day's own, the figures of its tally and
// the UPDATEs that its records hold, is defined in specs/Days.antt: a replay leaves the table that these leave when they are handed
// to the message call one by one (proofs/Messages.antt).
#![tactic(auto)]
