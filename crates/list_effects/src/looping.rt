// What (LOOP) and (+LOOP) would do, with their operand in A. The dispatch has calls of its own for them: a second call of the same function would keep
// it from being laid into the processor's loop.
#![tactic(auto, using(instruction::proofs::ShapeLaws::branch_target), unfolding(instruction::specs::Taking::taking_of))]

ghost use Rattle.std.specs.Prelude.{◌≡◌, length};
ghost use Rattle.machine.specs.Places as places;
ghost use Rattle.machine.specs.Effects as effects;
ghost use Rattle.instruction.specs.Taking as taking;
ghost use Rattle.instruction.specs.declared.OperandForm.TheVariants as form;
ghost use Rattle.list_effects.specs.Looping as looping;

use cell::number::add;
use cell::{Address, Fault};
use counting::plus_ends;
use instruction::shape::write_nothing;
use machine::places::{fetch_data, fetch_return};
use machine::{CellStore, Machine, Registers, Request, Target, Then, Write};

// What a step of a loop asks for, whether it ends the loop or goes on with the index `next`; sp is SP behind it.
fn looped(sp: u32, rp: u32, to: Address, next: u32, ends: bool) -> Request<Option<CellStore>>
    ensures { effects.requested effects.maybe_store result ≡ looping.looped_of sp rp to.0 next ends }
{
    if ends {
        return write_nothing(sp, add(rp, 8));
    }
    Request {
        sp,
        rp,
        stores: Some(CellStore {
            target: Target::Return,
            write: Write {
                at: Address(rp),
                value: next,
            },
        }),
        then: Then::Jump(to),
    }
}

pub fn propose_loop(
    machine: Machine,
    memory: &[u8],
    r: Registers,
) -> Result<Request<Option<CellStore>>, Fault>
    requires { places.Fits machine (length memory.now) }
    ensures { effects.asked effects.maybe_store result ≡ taking.taking_at machine form.Immediate taking.loop memory.now r }
{
    let index = fetch_return(machine, memory, Address(r.rp))?;
    let limit = fetch_return(machine, memory, Address(add(r.rp, 4)))?;
    let next = add(index, 1);
    let to = add(r.ep, r.a % 0x40000000 * 4);
    Ok(looped(r.sp, r.rp, Address(to), next, next == limit))
}

pub fn propose_plus_loop(
    machine: Machine,
    memory: &[u8],
    r: Registers,
) -> Result<Request<Option<CellStore>>, Fault>
    requires { places.Fits machine (length memory.now) }
    ensures { effects.asked effects.maybe_store result ≡ taking.taking_at machine form.Immediate taking.plus_loop memory.now r }
{
    let n = fetch_data(machine, memory, Address(r.sp))?;
    let index = fetch_return(machine, memory, Address(r.rp))?;
    let limit = fetch_return(machine, memory, Address(add(r.rp, 4)))?;
    let next = add(index, n);
    let to = add(r.ep, r.a % 0x40000000 * 4);
    let ends = plus_ends(next, limit, n);
    Ok(looped(add(r.sp, 4), r.rp, Address(to), next, ends))
}
