// Wrong programs that the promises shut out. There is no code here: each is told in proofs/Shams.antt by what it does
// otherwise than ours, and one small history shows it up.
#![tactic(auto)]
