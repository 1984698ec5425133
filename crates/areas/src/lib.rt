// Stack areas that an office sets: what they are, and their judgement.
#![tactic(auto)]

pub mod judging;

use cell::{Address, CellCount};
use machine::Registers;

// The cells of a stack: so many of them below the top.
#[derive(Clone, Copy)]
pub struct Area {
    pub top: Address,
    pub cells: CellCount,
}

// The data stack's area and the return stack's; four zeros where there are none. The held cell (document 02's own term) lies just under the data area.
#[derive(Clone, Copy)]
pub struct Areas {
    pub stack: Area,
    pub returns: Area,
}

// All eight registers: the four that cycles move, and the areas, which stay as they are given.
#[derive(Clone, Copy)]
pub struct RegisterFile {
    pub registers: Registers,
    pub areas: Areas,
}
