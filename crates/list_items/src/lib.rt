// The list machine (document 01's own term) over a listing whose layout is settled: one item, and a number of them.
#![tactic(auto)]

pub mod carrying;
pub mod running;
