// The forms of a batch, laid into memory.
#![tactic(auto)]

pub mod laying;
