// ROLL.
#![tactic(auto, using(crate::proofs::RollingLaws::deep_address_lem), unfolding(instruction::specs::Plain::plain_of))]

ghost use Rattle.std.specs.Prelude.{◌≡◌, length};
ghost use Rattle.machine.specs.Places as places;
ghost use Rattle.machine.specs.Effects as effects;
ghost use Rattle.instruction.specs.Plain as plain;

use cell::number::add;
use cell::{Address, CellCount, Fault};
use instruction::Instruction;
use instruction::shape::fetch_deep;
use machine::places::fetch_data;
use machine::{Machine, Registers, Request, RollStores, Then};

// 0Ah ROLL ( x_u .. x_0 u -- x_u-1 .. x_0 x_u )
pub fn roll(machine: Machine, memory: &[u8], r: Registers) -> Result<Request<RollStores>, Fault>
    requires { places.Fits machine (length memory.now) }
    ensures { effects.asked (effects.rolled_stores machine.order memory.now) result ≡ plain.plain_at machine Instruction.Roll memory.now r }
{
    let u = fetch_data(machine, memory, Address(r.sp))?;
    fetch_deep(machine, memory, Address(r.sp), CellCount(u))?;
    // exact: the address of the deep item, no lower than this, is one
    let top = r.sp + 4;
    Ok(Request {
        sp: add(r.sp, 4),
        rp: r.rp,
        stores: RollStores {
            top: Address(top),
            depth: CellCount(u),
        },
        then: Then::GoOn,
    })
}
