// What is promised of a neighbour's messages and of the withdrawals that are written for one. There is no code here: what a
// history has of a message and what a message is refused for are defined in specs/Heard.antt. A message is single calls
// (proofs/Routes.antt), so that all of crates/promises holds after it; what is said of the message itself is in
// proofs/Promises.antt and proofs/Refused.antt.
#![tactic(auto)]
