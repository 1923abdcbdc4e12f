// What is promised of a comparison of two tables. There is no code here: what a party's paper has and what a comparison is
// refused for are defined in specs/. What holds of any two tables is in proofs/Differing.antt, demand 1 in proofs/Refused.antt,
// and what holds after two histories in proofs/Promises.antt.
#![tactic(auto)]
