// What refuses a packing.
#![tactic(auto)]

pub mod judgement;
