// Exceptions: HALT and LIB.
#![tactic(auto, unfolding(instruction::specs::Plain::plain_of))]

ghost use Rattle.std.specs.Prelude.{◌≡◌, length};
ghost use Rattle.machine.specs.Places as places;
ghost use Rattle.machine.specs.Effects as effects;
ghost use Rattle.instruction.specs.Plain as plain;

use cell::number::add;
use cell::{Address, Fault};
use exceptions::fixed::BAD_STACK;
use instruction::Instruction;
use machine::places::fetch_data;
use machine::{Machine, Registers, Request, Then};

// 55h HALT ( x -- ): an SP that is no valid cell stops the machine with -258.
pub fn halt(machine: Machine, memory: &[u8], r: Registers) -> Result<Request<()>, Fault>
    requires { places.Fits machine (length memory.now) }
    ensures { effects.asked effects.no_store result ≡ plain.plain_at machine Instruction.Halt memory.now r }
{
    let halted = match fetch_data(machine, memory, Address(r.sp)) {
        Ok(x) => Request {
            sp: add(r.sp, 4),
            rp: r.rp,
            stores: (),
            then: Then::Halt(x),
        },
        Err(_) => Request {
            sp: r.sp,
            rp: r.rp,
            stores: (),
            then: Then::Halt(BAD_STACK),
        },
    };
    Ok(halted)
}

// 57h LIB ( n -- )
pub fn lib(machine: Machine, memory: &[u8], r: Registers) -> Result<Request<()>, Fault>
    requires { places.Fits machine (length memory.now) }
    ensures { effects.asked effects.no_store result ≡ plain.plain_at machine Instruction.Lib memory.now r }
{
    fetch_data(machine, memory, Address(r.sp))?;
    Err(Fault::Library)
}
