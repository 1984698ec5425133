// The stack pointers.
#![tactic(auto, unfolding(instruction::specs::Plain::plain_of))]

ghost use Rattle.std.specs.Prelude.{◌≡◌, length};
ghost use Rattle.machine.specs.Places as places;
ghost use Rattle.machine.specs.Effects as effects;
ghost use Rattle.instruction.specs.Plain as plain;

use cell::number::add;
use cell::{Address, Fault};
use instruction::Instruction;
use machine::places::fetch_data;
use machine::{Machine, Registers, Request, Then};

// 3Fh SP! ( a-addr -- )
pub fn sp_store(machine: Machine, memory: &[u8], r: Registers) -> Result<Request<()>, Fault>
    requires { places.Fits machine (length memory.now) }
    ensures { effects.asked effects.no_store result ≡ plain.plain_at machine Instruction.SpStore memory.now r }
{
    let x = fetch_data(machine, memory, Address(r.sp))?;
    if x % 4 == 0 {
        return Ok(Request {
            sp: x,
            rp: r.rp,
            stores: (),
            then: Then::GoOn,
        });
    }
    Err(Fault::Alignment(Address(x)))
}

// 41h RP! ( a-addr -- )
pub fn rp_store(machine: Machine, memory: &[u8], r: Registers) -> Result<Request<()>, Fault>
    requires { places.Fits machine (length memory.now) }
    ensures { effects.asked effects.no_store result ≡ plain.plain_at machine Instruction.RpStore memory.now r }
{
    let x = fetch_data(machine, memory, Address(r.sp))?;
    if x % 4 == 0 {
        return Ok(Request {
            sp: add(r.sp, 4),
            rp: x,
            stores: (),
            then: Then::GoOn,
        });
    }
    Err(Fault::Alignment(Address(x)))
}
