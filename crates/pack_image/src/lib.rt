// The image written to the output.
#![tactic(auto)]

pub mod write;
