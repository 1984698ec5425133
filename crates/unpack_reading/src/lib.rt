// All items of an image, and the items that branches lead to, in working arrays.
#![tactic(auto)]

pub mod items;
pub mod targets;

// The number of no item, for a branch that leads to none.
pub const NO_ITEM: u16 = 4096;
