// The messages of a neighbour, BGP's UPDATEs, as definitions that are computed (specs/) and laws about
// them (proofs/): what a message says, what is wrong with it, what it does to a table, and how a
// withdrawal is written. There is no code here: only the type that the call and its definition share.
#![tactic(auto)]

// What an accepted message is given back: how many of its routes the table accepted and how many it refused.
#[derive(Clone, Copy, Debug, PartialEq, Eq)]
pub struct Report {
    pub accepted: u32,
    pub refused: u32,
}
