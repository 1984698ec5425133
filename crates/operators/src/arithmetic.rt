// Arithmetic.
#![tactic(auto, unfolding(instruction::specs::Plain::plain_of))]

ghost use Rattle.std.specs.Prelude.{◌≡◌, length};
ghost use Rattle.machine.specs.Places as places;
ghost use Rattle.machine.specs.Effects as effects;
ghost use Rattle.instruction.specs.Plain as plain;

use cell::division::{divide_floored, divide_symmetric, divide_unsigned};
use cell::number::{add, greater_of, halve, lesser_of, magnitude, multiply, subtract};
use cell::{Address, Fault, number};
use instruction::Instruction;
use instruction::shape::{reduce, replace, replace_both};
use machine::places::fetch_data;
use machine::{CellStore, Machine, Registers, Request, TwoStores};

// 1Eh + ( n1 n2 -- n3 )
pub fn plus(machine: Machine, memory: &[u8], r: Registers) -> Result<Request<CellStore>, Fault>
    requires { places.Fits machine (length memory.now) }
    ensures { effects.asked effects.one_store result ≡ plain.plain_at machine Instruction.Plus memory.now r }
{
    let x2 = fetch_data(machine, memory, Address(r.sp))?;
    let x1 = fetch_data(machine, memory, Address(add(r.sp, 4)))?;
    Ok(reduce(r, add(x1, x2)))
}

// 1Fh - ( n1 n2 -- n3 )
pub fn minus(machine: Machine, memory: &[u8], r: Registers) -> Result<Request<CellStore>, Fault>
    requires { places.Fits machine (length memory.now) }
    ensures { effects.asked effects.one_store result ≡ plain.plain_at machine Instruction.Minus memory.now r }
{
    let x2 = fetch_data(machine, memory, Address(r.sp))?;
    let x1 = fetch_data(machine, memory, Address(add(r.sp, 4)))?;
    Ok(reduce(r, subtract(x1, x2)))
}

// 20h >-< ( n1 n2 -- n3 )
pub fn swap_minus(
    machine: Machine,
    memory: &[u8],
    r: Registers,
) -> Result<Request<CellStore>, Fault>
    requires { places.Fits machine (length memory.now) }
    ensures { effects.asked effects.one_store result ≡ plain.plain_at machine Instruction.SwapMinus memory.now r }
{
    let x2 = fetch_data(machine, memory, Address(r.sp))?;
    let x1 = fetch_data(machine, memory, Address(add(r.sp, 4)))?;
    Ok(reduce(r, subtract(x2, x1)))
}

// 21h 1+ ( n1 -- n2 )
pub fn one_plus(machine: Machine, memory: &[u8], r: Registers) -> Result<Request<CellStore>, Fault>
    requires { places.Fits machine (length memory.now) }
    ensures { effects.asked effects.one_store result ≡ plain.plain_at machine Instruction.OnePlus memory.now r }
{
    let x = fetch_data(machine, memory, Address(r.sp))?;
    Ok(replace(r, add(x, 1)))
}

// 22h 1- ( n1 -- n2 )
pub fn one_minus(machine: Machine, memory: &[u8], r: Registers) -> Result<Request<CellStore>, Fault>
    requires { places.Fits machine (length memory.now) }
    ensures { effects.asked effects.one_store result ≡ plain.plain_at machine Instruction.OneMinus memory.now r }
{
    let x = fetch_data(machine, memory, Address(r.sp))?;
    Ok(replace(r, subtract(x, 1)))
}

// 23h CELL+ ( n1 -- n2 )
pub fn cell_plus(machine: Machine, memory: &[u8], r: Registers) -> Result<Request<CellStore>, Fault>
    requires { places.Fits machine (length memory.now) }
    ensures { effects.asked effects.one_store result ≡ plain.plain_at machine Instruction.CellPlus memory.now r }
{
    let x = fetch_data(machine, memory, Address(r.sp))?;
    Ok(replace(r, add(x, 4)))
}

// 24h CELL- ( n1 -- n2 )
pub fn cell_minus(
    machine: Machine,
    memory: &[u8],
    r: Registers,
) -> Result<Request<CellStore>, Fault>
    requires { places.Fits machine (length memory.now) }
    ensures { effects.asked effects.one_store result ≡ plain.plain_at machine Instruction.CellMinus memory.now r }
{
    let x = fetch_data(machine, memory, Address(r.sp))?;
    Ok(replace(r, subtract(x, 4)))
}

// 25h * ( n1 n2 -- n3 )
pub fn star(machine: Machine, memory: &[u8], r: Registers) -> Result<Request<CellStore>, Fault>
    requires { places.Fits machine (length memory.now) }
    ensures { effects.asked effects.one_store result ≡ plain.plain_at machine Instruction.Star memory.now r }
{
    let x2 = fetch_data(machine, memory, Address(r.sp))?;
    let x1 = fetch_data(machine, memory, Address(add(r.sp, 4)))?;
    Ok(reduce(r, multiply(x1, x2)))
}

// 26h / ( n1 n2 -- n3 )
pub fn slash(machine: Machine, memory: &[u8], r: Registers) -> Result<Request<CellStore>, Fault>
    requires { places.Fits machine (length memory.now) }
    ensures { effects.asked effects.one_store result ≡ plain.plain_at machine Instruction.Slash memory.now r }
{
    let n2 = fetch_data(machine, memory, Address(r.sp))?;
    let n1 = fetch_data(machine, memory, Address(add(r.sp, 4)))?;
    if n2 == 0 {
        return Err(Fault::Divisor);
    }
    let q = divide_floored(n1, n2);
    Ok(reduce(r, q.quotient))
}

// 27h MOD ( n1 n2 -- n3 )
pub fn modulo(machine: Machine, memory: &[u8], r: Registers) -> Result<Request<CellStore>, Fault>
    requires { places.Fits machine (length memory.now) }
    ensures { effects.asked effects.one_store result ≡ plain.plain_at machine Instruction.Mod memory.now r }
{
    let n2 = fetch_data(machine, memory, Address(r.sp))?;
    let n1 = fetch_data(machine, memory, Address(add(r.sp, 4)))?;
    if n2 == 0 {
        return Err(Fault::Divisor);
    }
    let q = divide_floored(n1, n2);
    Ok(reduce(r, q.remainder))
}

// 28h /MOD ( n1 n2 -- n3 n4 )
pub fn slash_mod(machine: Machine, memory: &[u8], r: Registers) -> Result<Request<TwoStores>, Fault>
    requires { places.Fits machine (length memory.now) }
    ensures { effects.asked effects.two_stores result ≡ plain.plain_at machine Instruction.SlashMod memory.now r }
{
    let n2 = fetch_data(machine, memory, Address(r.sp))?;
    let n1 = fetch_data(machine, memory, Address(add(r.sp, 4)))?;
    if n2 == 0 {
        return Err(Fault::Divisor);
    }
    Ok(replace_both(r, divide_floored(n1, n2)))
}

// 29h U/MOD ( u1 u2 -- u3 u4 )
pub fn u_slash_mod(
    machine: Machine,
    memory: &[u8],
    r: Registers,
) -> Result<Request<TwoStores>, Fault>
    requires { places.Fits machine (length memory.now) }
    ensures { effects.asked effects.two_stores result ≡ plain.plain_at machine Instruction.USlashMod memory.now r }
{
    let n2 = fetch_data(machine, memory, Address(r.sp))?;
    let n1 = fetch_data(machine, memory, Address(add(r.sp, 4)))?;
    if n2 == 0 {
        return Err(Fault::Divisor);
    }
    Ok(replace_both(r, divide_unsigned(n1, n2)))
}

// 2Ah S/REM ( n1 n2 -- n3 n4 )
pub fn s_slash_rem(
    machine: Machine,
    memory: &[u8],
    r: Registers,
) -> Result<Request<TwoStores>, Fault>
    requires { places.Fits machine (length memory.now) }
    ensures { effects.asked effects.two_stores result ≡ plain.plain_at machine Instruction.SSlashRem memory.now r }
{
    let n2 = fetch_data(machine, memory, Address(r.sp))?;
    let n1 = fetch_data(machine, memory, Address(add(r.sp, 4)))?;
    if n2 == 0 {
        return Err(Fault::Divisor);
    }
    Ok(replace_both(r, divide_symmetric(n1, n2)))
}

// 2Bh 2/ ( x1 -- x2 )
pub fn two_slash(machine: Machine, memory: &[u8], r: Registers) -> Result<Request<CellStore>, Fault>
    requires { places.Fits machine (length memory.now) }
    ensures { effects.asked effects.one_store result ≡ plain.plain_at machine Instruction.TwoSlash memory.now r }
{
    let x = fetch_data(machine, memory, Address(r.sp))?;
    Ok(replace(r, halve(x)))
}

// 2Ch CELLS ( n1 -- n2 )
pub fn cells(machine: Machine, memory: &[u8], r: Registers) -> Result<Request<CellStore>, Fault>
    requires { places.Fits machine (length memory.now) }
    ensures { effects.asked effects.one_store result ≡ plain.plain_at machine Instruction.Cells memory.now r }
{
    let x = fetch_data(machine, memory, Address(r.sp))?;
    Ok(replace(r, multiply(x, 4)))
}

// 2Dh ABS ( n -- u )
pub fn abs(machine: Machine, memory: &[u8], r: Registers) -> Result<Request<CellStore>, Fault>
    requires { places.Fits machine (length memory.now) }
    ensures { effects.asked effects.one_store result ≡ plain.plain_at machine Instruction.Abs memory.now r }
{
    let x = fetch_data(machine, memory, Address(r.sp))?;
    Ok(replace(r, magnitude(x)))
}

// 2Eh NEGATE ( n1 -- n2 )
pub fn negate(machine: Machine, memory: &[u8], r: Registers) -> Result<Request<CellStore>, Fault>
    requires { places.Fits machine (length memory.now) }
    ensures { effects.asked effects.one_store result ≡ plain.plain_at machine Instruction.Negate memory.now r }
{
    let x = fetch_data(machine, memory, Address(r.sp))?;
    Ok(replace(r, number::negate(x)))
}

// 2Fh MAX ( n1 n2 -- n3 )
pub fn max(machine: Machine, memory: &[u8], r: Registers) -> Result<Request<CellStore>, Fault>
    requires { places.Fits machine (length memory.now) }
    ensures { effects.asked effects.one_store result ≡ plain.plain_at machine Instruction.Max memory.now r }
{
    let x2 = fetch_data(machine, memory, Address(r.sp))?;
    let x1 = fetch_data(machine, memory, Address(add(r.sp, 4)))?;
    Ok(reduce(r, greater_of(x1, x2)))
}

// 30h MIN ( n1 n2 -- n3 )
pub fn min(machine: Machine, memory: &[u8], r: Registers) -> Result<Request<CellStore>, Fault>
    requires { places.Fits machine (length memory.now) }
    ensures { effects.asked effects.one_store result ≡ plain.plain_at machine Instruction.Min memory.now r }
{
    let x2 = fetch_data(machine, memory, Address(r.sp))?;
    let x1 = fetch_data(machine, memory, Address(add(r.sp, 4)))?;
    Ok(reduce(r, lesser_of(x1, x2)))
}
