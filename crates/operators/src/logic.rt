// Logic and shifts.
#![tactic(auto, unfolding(instruction::specs::Plain::plain_of))]

ghost use Rattle.std.specs.Prelude.{◌≡◌, length};
ghost use Rattle.machine.specs.Places as places;
ghost use Rattle.machine.specs.Effects as effects;
ghost use Rattle.instruction.specs.Plain as plain;

use cell::number::{add, shift_left, shift_right};
use cell::{Address, Fault};
use instruction::Instruction;
use instruction::shape::{reduce, replace};
use machine::places::fetch_data;
use machine::{CellStore, Machine, Registers, Request};

// 31h INVERT ( x1 -- x2 )
pub fn invert(machine: Machine, memory: &[u8], r: Registers) -> Result<Request<CellStore>, Fault>
    requires { places.Fits machine (length memory.now) }
    ensures { effects.asked effects.one_store result ≡ plain.plain_at machine Instruction.Invert memory.now r }
{
    let x = fetch_data(machine, memory, Address(r.sp))?;
    Ok(replace(r, 0xFFFFFFFF - x))
}

// 32h AND ( x1 x2 -- x3 )
pub fn and(machine: Machine, memory: &[u8], r: Registers) -> Result<Request<CellStore>, Fault>
    requires { places.Fits machine (length memory.now) }
    ensures { effects.asked effects.one_store result ≡ plain.plain_at machine Instruction.And memory.now r }
{
    let x2 = fetch_data(machine, memory, Address(r.sp))?;
    let x1 = fetch_data(machine, memory, Address(add(r.sp, 4)))?;
    Ok(reduce(r, x1 & x2))
}

// 33h OR ( x1 x2 -- x3 )
pub fn or(machine: Machine, memory: &[u8], r: Registers) -> Result<Request<CellStore>, Fault>
    requires { places.Fits machine (length memory.now) }
    ensures { effects.asked effects.one_store result ≡ plain.plain_at machine Instruction.Or memory.now r }
{
    let x2 = fetch_data(machine, memory, Address(r.sp))?;
    let x1 = fetch_data(machine, memory, Address(add(r.sp, 4)))?;
    Ok(reduce(r, x1 | x2))
}

// 34h XOR ( x1 x2 -- x3 )
pub fn xor(machine: Machine, memory: &[u8], r: Registers) -> Result<Request<CellStore>, Fault>
    requires { places.Fits machine (length memory.now) }
    ensures { effects.asked effects.one_store result ≡ plain.plain_at machine Instruction.Xor memory.now r }
{
    let x2 = fetch_data(machine, memory, Address(r.sp))?;
    let x1 = fetch_data(machine, memory, Address(add(r.sp, 4)))?;
    Ok(reduce(r, x1 ^ x2))
}

// 35h LSHIFT ( x1 u -- x2 )
pub fn l_shift(machine: Machine, memory: &[u8], r: Registers) -> Result<Request<CellStore>, Fault>
    requires { places.Fits machine (length memory.now) }
    ensures { effects.asked effects.one_store result ≡ plain.plain_at machine Instruction.LShift memory.now r }
{
    let x2 = fetch_data(machine, memory, Address(r.sp))?;
    let x1 = fetch_data(machine, memory, Address(add(r.sp, 4)))?;
    Ok(reduce(r, shift_left(x1, x2)))
}

// 36h RSHIFT ( x1 u -- x2 )
pub fn r_shift(machine: Machine, memory: &[u8], r: Registers) -> Result<Request<CellStore>, Fault>
    requires { places.Fits machine (length memory.now) }
    ensures { effects.asked effects.one_store result ≡ plain.plain_at machine Instruction.RShift memory.now r }
{
    let x2 = fetch_data(machine, memory, Address(r.sp))?;
    let x1 = fetch_data(machine, memory, Address(add(r.sp, 4)))?;
    Ok(reduce(r, shift_right(x1, x2)))
}

// 37h 1LSHIFT ( x1 -- x2 )
pub fn one_l_shift(
    machine: Machine,
    memory: &[u8],
    r: Registers,
) -> Result<Request<CellStore>, Fault>
    requires { places.Fits machine (length memory.now) }
    ensures { effects.asked effects.one_store result ≡ plain.plain_at machine Instruction.OneLShift memory.now r }
{
    let x = fetch_data(machine, memory, Address(r.sp))?;
    Ok(replace(r, shift_left(x, 1)))
}

// 38h 1RSHIFT ( x1 -- x2 )
pub fn one_r_shift(
    machine: Machine,
    memory: &[u8],
    r: Registers,
) -> Result<Request<CellStore>, Fault>
    requires { places.Fits machine (length memory.now) }
    ensures { effects.asked effects.one_store result ≡ plain.plain_at machine Instruction.OneRShift memory.now r }
{
    let x = fetch_data(machine, memory, Address(r.sp))?;
    Ok(replace(r, shift_right(x, 1)))
}
