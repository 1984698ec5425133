// Parts that many effects share.
#![tactic(auto, using(crate::proofs::ShapeLaws::branch_target), unfolding(machine::specs::Places::fetch_of))]

ghost use Rattle.std.specs.Prelude.{◌≡◌, length};
ghost use Rattle.machine.specs.Places as places;
ghost use Rattle.machine.specs.Effects as effects;
ghost use Rattle.instruction.specs.Plain as plain;
ghost use Rattle.instruction.specs.Taking as taking;

use crate::OperandForm;
use cell::number::{add, subtract};
use cell::{Address, CellCount, Fault, Quotient};
use machine::places::{fetch, fetch_data};
use machine::{
    CellStore, Machine, Outcome, Registers, Request, Step, Target, Then, TwoStores, Write,
};

// The top item of the data stack replaced.
pub fn replace(r: Registers, x: u32) -> Request<CellStore>
    ensures { effects.requested effects.one_store result ≡ plain.replaces r.sp r.rp x }
{
    Request {
        sp: r.sp,
        rp: r.rp,
        stores: CellStore {
            target: Target::Data,
            write: Write {
                at: Address(r.sp),
                value: x,
            },
        },
        then: Then::GoOn,
    }
}

// The top two items replaced by one.
pub fn reduce(r: Registers, x: u32) -> Request<CellStore>
    ensures { effects.requested effects.one_store result ≡ plain.reduces r.sp r.rp x }
{
    let sp = add(r.sp, 4);
    Request {
        sp,
        rp: r.rp,
        stores: CellStore {
            target: Target::Data,
            write: Write {
                at: Address(sp),
                value: x,
            },
        },
        then: Then::GoOn,
    }
}

// One more item.
pub fn push(r: Registers, x: u32) -> Request<CellStore>
    ensures { effects.requested effects.one_store result ≡ plain.pushes r.sp r.rp x }
{
    let sp = subtract(r.sp, 4);
    Request {
        sp,
        rp: r.rp,
        stores: CellStore {
            target: Target::Data,
            write: Write {
                at: Address(sp),
                value: x,
            },
        },
        then: Then::GoOn,
    }
}

// Both results of a division, the remainder below the quotient.
pub fn replace_both(r: Registers, q: Quotient) -> Request<TwoStores>
    ensures { effects.requested effects.two_stores result ≡ plain.divided_both r.sp r.rp q }
{
    Request {
        sp: r.sp,
        rp: r.rp,
        stores: TwoStores {
            first: Write {
                at: Address(add(r.sp, 4)),
                value: q.remainder,
            },
            second: Write {
                at: Address(r.sp),
                value: q.quotient,
            },
        },
        then: Then::GoOn,
    }
}

// The stack pointers alone.
pub fn write_nothing(sp: u32, rp: u32) -> Request<Option<CellStore>>
    ensures { effects.requested effects.maybe_store result ≡ plain.moved sp rp }
{
    Request {
        sp,
        rp,
        stores: None,
        then: Then::GoOn,
    }
}

// The item `depth` below the top one, at its exact address.
pub fn fetch_deep(
    machine: Machine,
    memory: &[u8],
    sp: Address,
    depth: CellCount,
) -> Result<u32, Fault>
    requires { places.Fits machine (length memory.now) }
    ensures { result ≡ plain.fetch_deep machine memory.now (plain.deep_address sp.0 depth.0) }
{
    let a = sp.0 as u64 + 4 + 4 * (depth.0 as u64);
    if a < 0x1_0000_0000 {
        fetch_data(machine, memory, Address(a as u32))
    } else {
        Err(Fault::Range(Address((a % 0x1_0000_0000) as u32)))
    }
}

// The address that a branch leads to.
pub fn branch_operand(
    machine: Machine,
    memory: &[u8],
    r: Registers,
    form: OperandForm,
) -> Result<u32, Fault>
    requires { places.Fits machine (length memory.now) }
    ensures { result ≡ taking.branch_operand machine form memory.now r.ep r.a }
{
    match form {
        OperandForm::InCell => fetch(machine, memory, Address(r.ep)),
        OperandForm::Immediate => Ok(add(r.ep, r.a % 0x40000000 * 4)),
    }
}

// The value of a literal.
pub fn literal_operand(
    machine: Machine,
    memory: &[u8],
    r: Registers,
    form: OperandForm,
) -> Result<u32, Fault>
    requires { places.Fits machine (length memory.now) }
    ensures { result ≡ taking.literal_operand machine form memory.now r.ep r.a }
{
    match form {
        OperandForm::InCell => fetch(machine, memory, Address(r.ep)),
        OperandForm::Immediate => Ok(r.a),
    }
}

// The address that a call leaves.
pub fn return_address(r: Registers, form: OperandForm) -> u32
    ensures { result ≡ taking.after_of form r.ep }
{
    match form {
        OperandForm::InCell => add(r.ep, 4),
        OperandForm::Immediate => r.ep,
    }
}

// Where nothing was taken: past the operand cell, or NEXT.
pub fn onward(form: OperandForm, s: Step) -> Step
    ensures { result ≡ taking.onward_of form s }
{
    let r = s.registers;
    match (s.outcome, form) {
        (Outcome::Went, OperandForm::InCell) => Step {
            registers: Registers {
                ep: add(r.ep, 4),
                ..r
            },
            outcome: Outcome::Went,
        },
        (Outcome::Went, OperandForm::Immediate) => Step {
            registers: r,
            outcome: Outcome::Next,
        },
        _ => s,
    }
}
