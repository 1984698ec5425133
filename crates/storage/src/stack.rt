// Stack manipulation.
#![tactic(auto, unfolding(instruction::specs::Plain::plain_of))]

ghost use Rattle.std.specs.Prelude.{◌≡◌, length};
ghost use Rattle.machine.specs.Places as places;
ghost use Rattle.machine.specs.Effects as effects;
ghost use Rattle.instruction.specs.Plain as plain;

use cell::number::{add, subtract};
use cell::{Address, CellCount, Fault};
use instruction::Instruction;
use instruction::shape::{fetch_deep, push, reduce, replace, write_nothing};
use machine::places::{fetch_data, fetch_return};
use machine::{CellStore, Machine, Registers, Request, Target, Then, Write};

// 01h DUP ( x -- x x )
pub fn dup(machine: Machine, memory: &[u8], r: Registers) -> Result<Request<CellStore>, Fault>
    requires { places.Fits machine (length memory.now) }
    ensures { effects.asked effects.one_store result ≡ plain.plain_at machine Instruction.Dup memory.now r }
{
    let x = fetch_data(machine, memory, Address(r.sp))?;
    Ok(push(r, x))
}

// 02h DROP ( x -- )
pub fn drop(machine: Machine, memory: &[u8], r: Registers) -> Result<Request<()>, Fault>
    requires { places.Fits machine (length memory.now) }
    ensures { effects.asked effects.no_store result ≡ plain.plain_at machine Instruction.Drop memory.now r }
{
    fetch_data(machine, memory, Address(r.sp))?;
    Ok(Request {
        sp: add(r.sp, 4),
        rp: r.rp,
        stores: (),
        then: Then::GoOn,
    })
}

// 04h OVER ( x1 x2 -- x1 x2 x1 )
pub fn over(machine: Machine, memory: &[u8], r: Registers) -> Result<Request<CellStore>, Fault>
    requires { places.Fits machine (length memory.now) }
    ensures { effects.asked effects.one_store result ≡ plain.plain_at machine Instruction.Over memory.now r }
{
    fetch_data(machine, memory, Address(r.sp))?;
    let x1 = fetch_data(machine, memory, Address(add(r.sp, 4)))?;
    Ok(push(r, x1))
}

// 08h NIP ( x1 x2 -- x2 )
pub fn nip(machine: Machine, memory: &[u8], r: Registers) -> Result<Request<CellStore>, Fault>
    requires { places.Fits machine (length memory.now) }
    ensures { effects.asked effects.one_store result ≡ plain.plain_at machine Instruction.Nip memory.now r }
{
    let x2 = fetch_data(machine, memory, Address(r.sp))?;
    fetch_data(machine, memory, Address(add(r.sp, 4)))?;
    Ok(reduce(r, x2))
}

// 09h PICK ( x_u .. x_0 u -- x_u .. x_0 x_u )
pub fn pick(machine: Machine, memory: &[u8], r: Registers) -> Result<Request<CellStore>, Fault>
    requires { places.Fits machine (length memory.now) }
    ensures { effects.asked effects.one_store result ≡ plain.plain_at machine Instruction.Pick memory.now r }
{
    let u = fetch_data(machine, memory, Address(r.sp))?;
    let x = fetch_deep(machine, memory, Address(r.sp), CellCount(u))?;
    Ok(replace(r, x))
}

// 0Bh ?DUP ( x -- 0 | x x )
pub fn question_dup(
    machine: Machine,
    memory: &[u8],
    r: Registers,
) -> Result<Request<Option<CellStore>>, Fault>
    requires { places.Fits machine (length memory.now) }
    ensures { effects.asked effects.maybe_store result ≡ plain.plain_at machine Instruction.QuestionDup memory.now r }
{
    let x = fetch_data(machine, memory, Address(r.sp))?;
    if x == 0 {
        return Ok(write_nothing(r.sp, r.rp));
    }
    let sp = subtract(r.sp, 4);
    Ok(Request {
        sp,
        rp: r.rp,
        stores: Some(CellStore {
            target: Target::Data,
            write: Write {
                at: Address(sp),
                value: x,
            },
        }),
        then: Then::GoOn,
    })
}

// 0Ch >R ( x -- ) R: ( -- x )
pub fn to_r(machine: Machine, memory: &[u8], r: Registers) -> Result<Request<CellStore>, Fault>
    requires { places.Fits machine (length memory.now) }
    ensures { effects.asked effects.one_store result ≡ plain.plain_at machine Instruction.ToR memory.now r }
{
    let x = fetch_data(machine, memory, Address(r.sp))?;
    Ok(Request {
        sp: add(r.sp, 4),
        rp: subtract(r.rp, 4),
        stores: CellStore {
            target: Target::Return,
            write: Write {
                at: Address(subtract(r.rp, 4)),
                value: x,
            },
        },
        then: Then::GoOn,
    })
}

// 0Dh R> ( -- x ) R: ( x -- )
pub fn r_from(machine: Machine, memory: &[u8], r: Registers) -> Result<Request<CellStore>, Fault>
    requires { places.Fits machine (length memory.now) }
    ensures { effects.asked effects.one_store result ≡ plain.plain_at machine Instruction.RFrom memory.now r }
{
    let x = fetch_return(machine, memory, Address(r.rp))?;
    Ok(Request {
        sp: subtract(r.sp, 4),
        rp: add(r.rp, 4),
        stores: CellStore {
            target: Target::Data,
            write: Write {
                at: Address(subtract(r.sp, 4)),
                value: x,
            },
        },
        then: Then::GoOn,
    })
}

// 0Eh R@ ( -- x ) R: ( x -- x )
pub fn r_fetch(machine: Machine, memory: &[u8], r: Registers) -> Result<Request<CellStore>, Fault>
    requires { places.Fits machine (length memory.now) }
    ensures { effects.asked effects.one_store result ≡ plain.plain_at machine Instruction.RFetch memory.now r }
{
    let x = fetch_return(machine, memory, Address(r.rp))?;
    Ok(push(r, x))
}
