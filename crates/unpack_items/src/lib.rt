// One item of an image.
#![tactic(auto)]

pub mod item;
pub mod opcode;

use cell::CellCount;

// Where an item is read: the index of its cell, that cell from the item's opcode up, the index of its EP value, and whether
// it is the first item of its cell.
#[derive(Clone, Copy)]
pub struct Reader {
    pub at: CellCount,
    pub rest: u32,
    pub next: CellCount,
    pub first: bool,
}
