// Listing files of both kinds, judged in one pass and with no working array.
#![tactic(auto)]

pub mod file;
pub mod operands;
pub mod short;
