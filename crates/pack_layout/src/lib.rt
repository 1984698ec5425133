// Listings and their packing into cells: the types that the code shares with the definitions.
#![tactic(auto)]

use cell::CellCount;

// The number of an item of a listing, from 0.
#[derive(Clone, Copy)]
pub struct ItemNumber(pub u32);

// Where the layout stands: the index of the open cell, the bytes free in it (0: none is open, or it is full), and the
// index of the next cell.
#[derive(Clone, Copy)]
pub struct Cursor {
    pub at: CellCount,
    pub free: u32,
    pub next: CellCount,
}

// How an item is written: its opcode alone, with its value in the rest of the cell, or with an operand cell.
#[derive(Clone, Copy)]
pub enum ItemForm {
    Alone,
    Immediate,
    InCell,
}

// What a kind byte stands for.
#[derive(Clone, Copy)]
pub enum Class {
    Plain,
    Literal,
    Branch,
    NoKind,
}

// What a packing keeps of one item: the index of its cell, the index of its EP value, the bytes left behind its opcode, and whether it is an
// entry and is marked.
#[derive(Clone, Copy)]
pub struct PlacedItem {
    pub at: CellCount,
    pub next: CellCount,
    pub left: u8,
    pub entry: bool,
    pub marked: bool,
}

// An item before it is laid out.
pub const UNPLACED: PlacedItem = PlacedItem {
    at: CellCount(0),
    next: CellCount(0),
    left: 0,
    entry: false,
    marked: false,
};

// The items that a listing has at most, and so the places of a working array.
pub const MOST_ITEMS: usize = 4096;
