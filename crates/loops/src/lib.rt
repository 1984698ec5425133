// Counting loops.
#![tactic(auto, unfolding(instruction::specs::Plain::plain_of, instruction::specs::Taking::taking_of))]

ghost use Rattle.std.specs.Prelude.{◌≡◌, length};
ghost use Rattle.machine.specs.Places as places;
ghost use Rattle.machine.specs.Effects as effects;
ghost use Rattle.instruction.specs.Plain as plain;
ghost use Rattle.instruction.specs.Taking as taking;

use cell::number::{add, subtract};
use cell::{Address, Fault};
use counting::plus_ends;
use instruction::shape::{branch_operand, push, write_nothing};
use instruction::{Instruction, OperandForm};
use machine::places::{fetch_data, fetch_return};
use machine::{CellStore, Machine, Registers, Request, Target, Then, TwoReturns, Write};

// 4Bh (DO) ( x1 x2 -- ) R: ( -- x1 x2 )
pub fn start_loop(
    machine: Machine,
    memory: &[u8],
    r: Registers,
) -> Result<Request<TwoReturns>, Fault>
    requires { places.Fits machine (length memory.now) }
    ensures { effects.asked effects.two_returns result ≡ plain.plain_at machine Instruction.Do memory.now r }
{
    let x2 = fetch_data(machine, memory, Address(r.sp))?;
    let x1 = fetch_data(machine, memory, Address(add(r.sp, 4)))?;
    Ok(Request {
        sp: add(r.sp, 8),
        rp: subtract(r.rp, 8),
        stores: TwoReturns {
            first: Write {
                at: Address(subtract(r.rp, 4)),
                value: x1,
            },
            second: Write {
                at: Address(subtract(r.rp, 8)),
                value: x2,
            },
        },
        then: Then::GoOn,
    })
}

// 4Ch (LOOP), 4Dh (LOOP)I R: ( n1 n2 -- | n1 n3 )
pub fn step_loop(
    machine: Machine,
    memory: &[u8],
    r: Registers,
    form: OperandForm,
) -> Result<Request<Option<CellStore>>, Fault>
    requires { places.Fits machine (length memory.now) }
    ensures { effects.asked effects.maybe_store result ≡ taking.taking_at machine form taking.loop memory.now r }
{
    let index = fetch_return(machine, memory, Address(r.rp))?;
    let limit = fetch_return(machine, memory, Address(add(r.rp, 4)))?;
    let next = add(index, 1);
    if next == limit {
        return Ok(write_nothing(r.sp, add(r.rp, 8)));
    }
    let to = branch_operand(machine, memory, r, form)?;
    Ok(Request {
        sp: r.sp,
        rp: r.rp,
        stores: Some(CellStore {
            target: Target::Return,
            write: Write {
                at: Address(r.rp),
                value: next,
            },
        }),
        then: Then::Jump(Address(to)),
    })
}

// 4Eh (+LOOP), 4Fh (+LOOP)I ( n -- ) R: ( n2 n3 -- | n2 n4 )
pub fn step_plus_loop(
    machine: Machine,
    memory: &[u8],
    r: Registers,
    form: OperandForm,
) -> Result<Request<Option<CellStore>>, Fault>
    requires { places.Fits machine (length memory.now) }
    ensures { effects.asked effects.maybe_store result ≡ taking.taking_at machine form taking.plus_loop memory.now r }
{
    let n = fetch_data(machine, memory, Address(r.sp))?;
    let index = fetch_return(machine, memory, Address(r.rp))?;
    let limit = fetch_return(machine, memory, Address(add(r.rp, 4)))?;
    let next = add(index, n);
    if plus_ends(next, limit, n) {
        return Ok(write_nothing(add(r.sp, 4), add(r.rp, 8)));
    }
    let to = branch_operand(machine, memory, r, form)?;
    Ok(Request {
        sp: add(r.sp, 4),
        rp: r.rp,
        stores: Some(CellStore {
            target: Target::Return,
            write: Write {
                at: Address(r.rp),
                value: next,
            },
        }),
        then: Then::Jump(Address(to)),
    })
}

// 50h UNLOOP R: ( x1 x2 -- )
pub fn unloop(machine: Machine, memory: &[u8], r: Registers) -> Result<Request<()>, Fault>
    requires { places.Fits machine (length memory.now) }
    ensures { effects.asked effects.no_store result ≡ plain.plain_at machine Instruction.Unloop memory.now r }
{
    fetch_return(machine, memory, Address(r.rp))?;
    fetch_return(machine, memory, Address(add(r.rp, 4)))?;
    Ok(Request {
        sp: r.sp,
        rp: add(r.rp, 8),
        stores: (),
        then: Then::GoOn,
    })
}

// 51h J ( -- x1 ) R: ( x1 x2 x3 -- x1 x2 x3 )
pub fn outer_index(
    machine: Machine,
    memory: &[u8],
    r: Registers,
) -> Result<Request<CellStore>, Fault>
    requires { places.Fits machine (length memory.now) }
    ensures { effects.asked effects.one_store result ≡ plain.plain_at machine Instruction.J memory.now r }
{
    fetch_return(machine, memory, Address(r.rp))?;
    fetch_return(machine, memory, Address(add(r.rp, 4)))?;
    let x1 = fetch_return(machine, memory, Address(add(r.rp, 8)))?;
    Ok(push(r, x1))
}
