// A quoted text as bytes, for the definitions that name one. There is no code here.
#![tactic(auto)]
