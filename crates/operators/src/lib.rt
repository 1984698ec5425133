// Arithmetic, comparison and logic.
#![tactic(auto)]

pub mod arithmetic;
pub mod comparison;
pub mod logic;
