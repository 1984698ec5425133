// Cells: their places in lent memory, in either byte order, and their arithmetic.
#![tactic(auto)]

pub mod division;
pub mod judgement;
pub mod memory;
pub mod number;
pub mod place;

// A byte address.
#[derive(Clone, Copy)]
pub struct Address(pub u32);

// A number of cells.
#[derive(Clone, Copy)]
pub struct CellCount(pub u32);

// Why an instruction raises. What is thrown for it, `machine` tells. The check of a place answers `Ok` or its fault, a fetch the cell or its fault.
#[derive(Clone, Copy)]
pub enum Fault {
    // -9: the address lies outside memory
    Range(Address),
    // -23: the address is no multiple of 4
    Alignment(Address),
    // a place in memory that the data stack may not have here: -23, -3 or -4
    Data(Address),
    // a place in memory that the return stack may not have here: -23, -5 or -6
    Return(Address),
    // -20: a write into the table
    Table,
    // -10: division by zero
    Divisor,
    // -256: an opcode with no meaning
    Illegal,
    // -257: an unknown library routine
    Library,
}

// What a division gives.
#[derive(Clone, Copy)]
pub struct Quotient {
    pub quotient: u32,
    pub remainder: u32,
}

// Why a call is refused. specs/Refusals.antt has the number of each. The judgement of a call's input answers `Ok` or its refusal.
#[derive(Clone, Copy)]
pub enum Refusal {
    MemoryLength,
    ByteOrder,
    StackAreas,
    Table,
    Header,
    FileLength,
    Unaligned,
    Outside,
    ShortOutput,
    ItemCount,
    OperandCount,
    Kind,
    PlainOperand,
    Target,
    Base,
    NoListing,
    ModuleSet,
}
