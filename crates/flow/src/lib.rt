// Control structures, literals and exceptions.
#![tactic(auto)]

pub mod control;
pub mod halting;
pub mod literals;
