// Cycles of the processor, one after the other.
#![tactic(auto)]

pub mod running;
