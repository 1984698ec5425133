// A listing in two lent arrays: its kinds, its judgement, its file, its entries.
#![tactic(auto)]

pub mod check;
pub mod entries;
pub mod file;
pub mod kinds;
