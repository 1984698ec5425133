// The packing of a listing file.
#![tactic(auto)]

pub mod file;
