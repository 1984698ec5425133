// Comparison.
#![tactic(auto, unfolding(instruction::specs::Plain::plain_of))]

ghost use Rattle.std.specs.Prelude.{◌≡◌, length};
ghost use Rattle.machine.specs.Places as places;
ghost use Rattle.machine.specs.Effects as effects;
ghost use Rattle.instruction.specs.Plain as plain;

use cell::number::{add, flag, is_less};
use cell::{Address, Fault};
use instruction::Instruction;
use instruction::shape::{reduce, replace};
use machine::places::fetch_data;
use machine::{CellStore, Machine, Registers, Request};

// 0Fh < ( n1 n2 -- flag )
pub fn less(machine: Machine, memory: &[u8], r: Registers) -> Result<Request<CellStore>, Fault>
    requires { places.Fits machine (length memory.now) }
    ensures { effects.asked effects.one_store result ≡ plain.plain_at machine Instruction.Less memory.now r }
{
    let x2 = fetch_data(machine, memory, Address(r.sp))?;
    let x1 = fetch_data(machine, memory, Address(add(r.sp, 4)))?;
    Ok(reduce(r, flag(is_less(x1, x2))))
}

// 10h > ( n1 n2 -- flag )
pub fn greater(machine: Machine, memory: &[u8], r: Registers) -> Result<Request<CellStore>, Fault>
    requires { places.Fits machine (length memory.now) }
    ensures { effects.asked effects.one_store result ≡ plain.plain_at machine Instruction.Greater memory.now r }
{
    let x2 = fetch_data(machine, memory, Address(r.sp))?;
    let x1 = fetch_data(machine, memory, Address(add(r.sp, 4)))?;
    Ok(reduce(r, flag(is_less(x2, x1))))
}

// 11h = ( x1 x2 -- flag )
pub fn equal(machine: Machine, memory: &[u8], r: Registers) -> Result<Request<CellStore>, Fault>
    requires { places.Fits machine (length memory.now) }
    ensures { effects.asked effects.one_store result ≡ plain.plain_at machine Instruction.Equal memory.now r }
{
    let x2 = fetch_data(machine, memory, Address(r.sp))?;
    let x1 = fetch_data(machine, memory, Address(add(r.sp, 4)))?;
    Ok(reduce(r, flag(x1 == x2)))
}

// 12h <> ( x1 x2 -- flag )
pub fn not_equal(machine: Machine, memory: &[u8], r: Registers) -> Result<Request<CellStore>, Fault>
    requires { places.Fits machine (length memory.now) }
    ensures { effects.asked effects.one_store result ≡ plain.plain_at machine Instruction.NotEqual memory.now r }
{
    let x2 = fetch_data(machine, memory, Address(r.sp))?;
    let x1 = fetch_data(machine, memory, Address(add(r.sp, 4)))?;
    Ok(reduce(r, flag(x1 != x2)))
}

// 13h 0< ( n -- flag )
pub fn zero_less(machine: Machine, memory: &[u8], r: Registers) -> Result<Request<CellStore>, Fault>
    requires { places.Fits machine (length memory.now) }
    ensures { effects.asked effects.one_store result ≡ plain.plain_at machine Instruction.ZeroLess memory.now r }
{
    let x = fetch_data(machine, memory, Address(r.sp))?;
    Ok(replace(r, flag(is_less(x, 0))))
}

// 14h 0> ( n -- flag )
pub fn zero_greater(
    machine: Machine,
    memory: &[u8],
    r: Registers,
) -> Result<Request<CellStore>, Fault>
    requires { places.Fits machine (length memory.now) }
    ensures { effects.asked effects.one_store result ≡ plain.plain_at machine Instruction.ZeroGreater memory.now r }
{
    let x = fetch_data(machine, memory, Address(r.sp))?;
    Ok(replace(r, flag(is_less(0, x))))
}

// 15h 0= ( x -- flag )
pub fn zero_equal(
    machine: Machine,
    memory: &[u8],
    r: Registers,
) -> Result<Request<CellStore>, Fault>
    requires { places.Fits machine (length memory.now) }
    ensures { effects.asked effects.one_store result ≡ plain.plain_at machine Instruction.ZeroEqual memory.now r }
{
    let x = fetch_data(machine, memory, Address(r.sp))?;
    Ok(replace(r, flag(x == 0)))
}

// 16h 0<> ( x -- flag )
pub fn zero_not_equal(
    machine: Machine,
    memory: &[u8],
    r: Registers,
) -> Result<Request<CellStore>, Fault>
    requires { places.Fits machine (length memory.now) }
    ensures { effects.asked effects.one_store result ≡ plain.plain_at machine Instruction.ZeroNotEqual memory.now r }
{
    let x = fetch_data(machine, memory, Address(r.sp))?;
    Ok(replace(r, flag(x != 0)))
}

// 17h U< ( u1 u2 -- flag )
pub fn u_less(machine: Machine, memory: &[u8], r: Registers) -> Result<Request<CellStore>, Fault>
    requires { places.Fits machine (length memory.now) }
    ensures { effects.asked effects.one_store result ≡ plain.plain_at machine Instruction.ULess memory.now r }
{
    let x2 = fetch_data(machine, memory, Address(r.sp))?;
    let x1 = fetch_data(machine, memory, Address(add(r.sp, 4)))?;
    Ok(reduce(r, flag(x1 < x2)))
}

// 18h U> ( u1 u2 -- flag )
pub fn u_greater(machine: Machine, memory: &[u8], r: Registers) -> Result<Request<CellStore>, Fault>
    requires { places.Fits machine (length memory.now) }
    ensures { effects.asked effects.one_store result ≡ plain.plain_at machine Instruction.UGreater memory.now r }
{
    let x2 = fetch_data(machine, memory, Address(r.sp))?;
    let x1 = fetch_data(machine, memory, Address(add(r.sp, 4)))?;
    Ok(reduce(r, flag(x2 < x1)))
}
