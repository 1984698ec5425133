// Memory.
#![tactic(auto, unfolding(instruction::specs::Plain::plain_of))]

ghost use Rattle.std.specs.Prelude.{◌≡◌, length};
ghost use Rattle.machine.specs.Places as places;
ghost use Rattle.machine.specs.Effects as effects;
ghost use Rattle.instruction.specs.Plain as plain;

use cell::number::{add, byte_address};
use cell::{Address, Fault};
use instruction::Instruction;
use instruction::shape::replace;
use machine::places::{fetch, fetch_byte, fetch_data};
use machine::{ByteStore, CellStore, Machine, Registers, Request, Target, Then, Write};

// 39h @ ( a-addr -- x )
pub fn fetch_named(
    machine: Machine,
    memory: &[u8],
    r: Registers,
) -> Result<Request<CellStore>, Fault>
    requires { places.Fits machine (length memory.now) }
    ensures { effects.asked effects.one_store result ≡ plain.plain_at machine Instruction.FetchCell memory.now r }
{
    let a = fetch_data(machine, memory, Address(r.sp))?;
    let x = fetch(machine, memory, Address(a))?;
    Ok(replace(r, x))
}

// 3Ah ! ( x a-addr -- )
pub fn store_named(
    machine: Machine,
    memory: &[u8],
    r: Registers,
) -> Result<Request<CellStore>, Fault>
    requires { places.Fits machine (length memory.now) }
    ensures { effects.asked effects.one_store result ≡ plain.plain_at machine Instruction.StoreCell memory.now r }
{
    let a = fetch_data(machine, memory, Address(r.sp))?;
    let x = fetch_data(machine, memory, Address(add(r.sp, 4)))?;
    Ok(Request {
        sp: add(r.sp, 8),
        rp: r.rp,
        stores: CellStore {
            target: Target::Named,
            write: Write {
                at: Address(a),
                value: x,
            },
        },
        then: Then::GoOn,
    })
}

// 3Bh C@ ( c-addr -- char )
pub fn c_fetch(machine: Machine, memory: &[u8], r: Registers) -> Result<Request<CellStore>, Fault>
    requires { places.Fits machine (length memory.now) }
    ensures { effects.asked effects.one_store result ≡ plain.plain_at machine Instruction.CFetch memory.now r }
{
    let a = fetch_data(machine, memory, Address(r.sp))?;
    let x = fetch_byte(machine, memory, Address(byte_address(machine.order, a)))?;
    Ok(replace(r, x))
}

// 3Ch C! ( char c-addr -- )
pub fn c_store(machine: Machine, memory: &[u8], r: Registers) -> Result<Request<ByteStore>, Fault>
    requires { places.Fits machine (length memory.now) }
    ensures { effects.asked effects.byte_store result ≡ plain.plain_at machine Instruction.CStore memory.now r }
{
    let a = fetch_data(machine, memory, Address(r.sp))?;
    let x = fetch_data(machine, memory, Address(add(r.sp, 4)))?;
    Ok(Request {
        sp: add(r.sp, 8),
        rp: r.rp,
        stores: ByteStore {
            at: Address(byte_address(machine.order, a)),
            value: x,
        },
        then: Then::GoOn,
    })
}

// 3Dh +! ( n a-addr -- )
pub fn plus_store(
    machine: Machine,
    memory: &[u8],
    r: Registers,
) -> Result<Request<CellStore>, Fault>
    requires { places.Fits machine (length memory.now) }
    ensures { effects.asked effects.one_store result ≡ plain.plain_at machine Instruction.PlusStore memory.now r }
{
    let a = fetch_data(machine, memory, Address(r.sp))?;
    let n = fetch_data(machine, memory, Address(add(r.sp, 4)))?;
    let x = fetch(machine, memory, Address(a))?;
    Ok(Request {
        sp: add(r.sp, 8),
        rp: r.rp,
        stores: CellStore {
            target: Target::Named,
            write: Write {
                at: Address(a),
                value: add(x, n),
            },
        },
        then: Then::GoOn,
    })
}
