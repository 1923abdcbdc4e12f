// What is promised to a C program of the calls of include/gateway.h. There is no code here: specs/ has
// what the header reads from the numbers and bytes that cross, and what a program can do; proofs/Seat.antt
// shows that what it did after an accepted clear is a history, and proofs/Unpacking.antt, proofs/Lists.antt,
// proofs/Comparisons.antt and proofs/Chunks.antt that what it reads is what the rules answer, so that all of
// crates/promises holds of it.
#![tactic(auto)]
