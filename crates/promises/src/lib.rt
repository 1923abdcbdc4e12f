// What is promised of the calls, over every history. There is no code here: a history and what it stores are defined in
// specs/History.antt, and each demand is one theorem in proofs/Promises.antt or proofs/Refused.antt. A seat, which is
// whoever makes calls, shows that what it did is a history (proofs/Histories.antt), and all of it holds of that seat.
#![tactic(auto)]
