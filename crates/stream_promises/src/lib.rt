// What is promised of a stream that is taken in chunks by a call with a table, whatever its records say, proved of the definitions
// alone. There is no code here. What a history has of a chunk, what a chunk is refused for and what chunks one after the other come
// to is defined in specs/Noted.antt; what has to be known of a reading is a record of laws (proofs/Lawful.antt), and dumps and days
// have it. A chunk is single calls (proofs/Singles.antt), so that all of crates/promises holds after it; however a stream is cut,
// table, counts and final number are the same (proofs/Cuts.antt), and its records are those of its file, one after the other
// (specs/Files.antt, proofs/Files.antt); what is said of the chunk itself is in proofs/Promises.antt and proofs/Refused.antt.
#![tactic(auto)]
