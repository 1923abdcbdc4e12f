// What is promised of the text program, line by line, over every input. There is no code here: what
// it writes is defined on paper in specs/, and proofs/Promises.antt has the demands as theorems.
#![tactic(auto)]
