// What an instruction asks for, as one type: the stores that it would make, whether they meet a range, and how they are made.
#![tactic(auto)]

pub mod carrying;
pub mod judging;
pub mod shaping;

use machine::{ByteStore, CellStore, RollStores, ThreeStores, TwoReturns, TwoStores};

// The stores of any instruction.
#[derive(Clone, Copy)]
pub enum Shape {
    // a cell, or none
    One(Option<CellStore>),
    Two(TwoStores),
    TwoReturns(TwoReturns),
    Three(ThreeStores),
    Byte(ByteStore),
    Roll(RollStores),
}
