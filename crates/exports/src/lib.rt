// The interface for C and Rust: numbers and slices. include/beetle.h has the same functions for C.
#![tactic(auto)]

pub mod forms;
pub mod images;
pub mod listings;
pub mod lists;
pub mod machines;
pub mod modules;
pub mod sets;
pub mod shorts;
