// The machine below its instructions: places and their accesses, what an instruction asks for and what its commit means.
#![tactic(auto)]

pub mod places;

ghost use Rattle.std.specs.Prelude.{◌+◌, ◌*◌, ◌<◌, ◌^◌};

use cell::{Address, CellCount, Fault};

// The cells that a stack may have: so many of them, the highest at `last`.
#[derive(Clone, Copy)]
pub struct Span {
    pub last: Address,
    pub cells: CellCount,
}

// Document 02's own term: the bytes from `first` up to, and without, `end`, which no rule writes. Two zeros where there is none.
#[derive(Clone, Copy)]
pub struct Table {
    pub first: Address,
    pub end: Address,
}

// The table as it is asked for at each write: so many bytes from the first on.
#[derive(Clone, Copy)]
pub struct Guarded {
    pub first: Address,
    pub bytes: u32,
}

// What goes with every call and is no register: the byte order, the cells that the data stack and the return stack may have, and the bytes that no rule writes. Of the data stack's
// cells it writes the highest, `writes` of them: the held cell, under these, may be read, and only a throw writes it.
#[derive(Clone, Copy)]
pub struct Machine {
    pub order: u8,
    pub stack: Span,
    pub writes: CellCount,
    pub returns: Span,
    pub table: Guarded,
}

// EP, A, SP, RP: cells of any value. They become addresses where memory is touched.
#[derive(Clone, Copy)]
pub struct Registers {
    pub ep: u32,
    pub a: u32,
    pub sp: u32,
    pub rp: u32,
}

// What a cell is touched for. Contracts name it: each kind of place has its own function.
#[derive(Clone, Copy)]
pub enum Access {
    DataRead,
    DataWrite,
    ReturnRead,
    ReturnWrite,
    NamedRead,
    NamedWrite,
    // the operand cell at EP, and NEXT
    Stream,
    // the code that a throw pushes
    Push,
}

// What a store of an instruction goes to.
#[derive(Clone, Copy)]
pub enum Target {
    Data,
    Return,
    Named,
}

// A cell to be written.
#[derive(Clone, Copy)]
pub struct Write {
    pub at: Address,
    pub value: u32,
}

// What follows has three types, one for each stage of a cycle. `Then` is what an instruction asks for; in specs/ it is the `Control` of an effect, and an
// instruction whose reading fails answers its fault in place of all this. `Outcome` is what the commit made of it: a jump has set EP and NEXT is to come,
// and a fault of the reading or of a place is to be raised. `Ended` is what the cycle came to when that was carried out.
//   Then::GoOn      Outcome::Went      Ended::Went
//   Then::Jump      Outcome::Next      Ended::Went; where NEXT fails, as Raise
//   Then::Halt      Outcome::Halt      Ended::Stopped with its reason
//   Then::Throw     Outcome::Throw     Ended::Went, or Stopped with -258 or -259
//   Err(fault)      Outcome::Raise     Ended::Threw, or Stopped with -258 or -259

// What an instruction asks for behind its writes.
#[derive(Clone, Copy)]
pub enum Then {
    GoOn,
    Jump(Address),
    Halt(u32),
    Throw,
}

// What an instruction asks for: the new stack pointers, the stores in order, and what follows. `S` says how many cells are written, and where: one of the types
// below, `()` for no store, or an `Option` of one.
#[derive(Clone, Copy)]
pub struct Request<S> {
    pub sp: u32,
    pub rp: u32,
    pub stores: S,
    pub then: Then,
}

// One cell.
#[derive(Clone, Copy)]
pub struct CellStore {
    pub target: Target,
    pub write: Write,
}

// Two cells of the data stack.
#[derive(Clone, Copy)]
pub struct TwoStores {
    pub first: Write,
    pub second: Write,
}

// Two cells of the return stack.
#[derive(Clone, Copy)]
pub struct TwoReturns {
    pub first: Write,
    pub second: Write,
}

// Three cells of the data stack.
#[derive(Clone, Copy)]
pub struct ThreeStores {
    pub first: Write,
    pub second: Write,
    pub third: Write,
}

// The low byte of `value`, at a byte's address.
#[derive(Clone, Copy)]
pub struct ByteStore {
    pub at: Address,
    pub value: u32,
}

// ROLL: the item `depth` below the top one comes to the top, which lies at `top` once the operand is popped. The deepest place is an address: its item was
// read there.
#[derive(Clone, Copy)]
pub struct RollStores {
    pub top: Address,
    pub depth: CellCount,
    ghost reached: { top.0 + 4 * depth.0 < 2 ^ 32 },
}

// How an instruction left the machine, before NEXT, a throw or a stop is carried out.
#[derive(Clone, Copy)]
pub enum Outcome {
    Went,
    Next,
    Raise(Fault),
    Halt(u32),
    Throw,
}

#[derive(Clone, Copy)]
pub struct Step {
    pub registers: Registers,
    pub outcome: Outcome,
}

// What a throw is made for. Crate `throws` has the code of each.
#[derive(Clone, Copy)]
pub enum Exception {
    // -9: the address lies outside memory
    Range(Address),
    // -23: the address is no multiple of 4
    Alignment(Address),
    // -3: the data stack below its area
    DataOverflow,
    // -4: the data stack at or above its top
    DataUnderflow,
    // -5: the return stack below its area
    ReturnOverflow,
    // -6: the return stack at or above its top
    ReturnUnderflow,
    // -20: a write into the table
    ReadOnly,
    // -10: division by zero
    Divisor,
    // -256: an opcode with no meaning
    Illegal,
    // -257: an unknown library routine
    Library,
}

// How a cycle ended.
#[derive(Clone, Copy)]
pub enum Ended {
    Went,
    Threw(Exception),
    Stopped(u32),
}

#[derive(Clone, Copy)]
pub struct CycleResult {
    pub registers: Registers,
    pub ended: Ended,
}
