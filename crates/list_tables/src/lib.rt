// The layout of a listing as the list machine reads it: a table with a row for each item, filled once the rounds have settled, and read by item number.
#![tactic(auto)]

pub mod settle;
pub mod tables;
pub mod tabling;

use cell::{Address, CellCount};

// The row of an item: the indexes of its cell, of its EP value, and of the cell behind it and its operand cell, and whether it is an entry,
// opens a cell, and is in its immediate form.
#[derive(Clone, Copy)]
pub struct ItemRow {
    pub at: CellCount,
    pub next: CellCount,
    pub behind: CellCount,
    pub entry: bool,
    pub opens: bool,
    pub immediate: bool,
}

// A row before it is written.
pub const NO_ROW: ItemRow = ItemRow {
    at: CellCount(0),
    next: CellCount(0),
    behind: CellCount(0),
    entry: false,
    opens: false,
    immediate: false,
};

// Where the image of a listing is to stand.
#[derive(Clone, Copy)]
pub struct Image {
    pub base: Address,
    pub cells: CellCount,
}
