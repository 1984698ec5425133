// The instructions that move cells: between the stacks, the stack pointers and memory.
#![tactic(auto)]

pub mod memory;
pub mod registers;
pub mod rolling;
pub mod stack;
