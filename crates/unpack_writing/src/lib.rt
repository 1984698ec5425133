// A listing written to lent arrays.
#![tactic(auto)]

pub mod arrays;
