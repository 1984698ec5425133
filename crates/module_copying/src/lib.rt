// The cells of a module, copied from one byte order to another.
#![tactic(auto)]

pub mod copying;
