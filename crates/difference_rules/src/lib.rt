// Which routes of a party differ between two tables, as definitions that are computed (specs/) and laws about
// them (proofs/). There is no code here: only the type that the definitions and the walk share.
#![tactic(auto)]

// What the first table and the second have at one prefix: marks as for party 0, and zero where there is no route.
#[derive(Clone, Copy, Debug, PartialEq, Eq)]
pub struct Difference {
    pub length: u32,
    pub prefix: u32,
    pub first: u32,
    pub second: u32,
}
