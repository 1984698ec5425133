// Lent arrays, as the calls of the interface read, write and judge them.
#![tactic(auto)]

pub mod lending;
