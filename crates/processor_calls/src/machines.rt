// What the processor's calls judge, and what they tell.
#![tactic(auto, unfolding(crate::specs::Machines::judge_call))]

ghost use Rattle.std.specs.Prelude.{◌≡◌, ◌≤◌, length};
ghost use Rattle.processor_calls.specs.Machines as machines;

use areas::Areas;
use bounds::judging::judge_bounded;
use cell::Refusal;
use lent_arrays::lending::{areas_in, with_room, write_one, write_registers, write_two};
use machine::Table;
use processor::{Cycled, Ran};
use processor_start::Started;

pub fn judge_call(
    length: usize,
    order: u8,
    areas: Areas,
    table: Table,
    registers: usize,
    out: usize,
    needed: usize,
) -> Result<(), Refusal>
    ensures { result ≡ machines.judge_call length order areas table registers out needed }
{
    let judged = with_room(judge_bounded(length, order, areas, table), registers, 8);
    with_room(judged, out, needed)
}

// Where the areas come with the registers.
pub fn judge_with(
    length: usize,
    order: u8,
    table: Table,
    registers: &[u32],
    out: usize,
    needed: usize,
) -> Result<(), Refusal>
    ensures { result ≡ machines.judge_with length order table registers.now out needed }
{
    let areas = areas_in(registers, 4);
    judge_call(length, order, areas, table, registers.len(), out, needed)
}

pub fn tell_started(answer: Result<Started, Refusal>, registers: &mut [u32], out: &mut [u32]) -> u32
    requires in_bounds { 8 ≤ length registers.old }
    requires in_bounds_2 { 1 ≤ length out.old }
    ensures { machines.told registers.new out.new result ≡ machines.start_told registers.old out.old answer }
{
    match answer {
        // never reached: the call judges before it asks for this answer
        Err(n) => u32::from(n),
        Ok(Started::Ready(r)) => {
            write_registers(registers, r);
            write_one(out, 0);
            0
        }
        Ok(Started::Stopped(r, x)) => {
            write_registers(registers, r);
            write_one(out, x);
            1
        }
    }
}

pub fn tell_cycled(answer: Result<Cycled, Refusal>, registers: &mut [u32], out: &mut [u32]) -> u32
    requires in_bounds { 8 ≤ length registers.old }
    requires in_bounds_2 { 1 ≤ length out.old }
    ensures { machines.told registers.new out.new result ≡ machines.cycle_told registers.old out.old answer }
{
    match answer {
        // never reached: the call judges before it asks for this answer
        Err(n) => u32::from(n),
        Ok(Cycled::Went(r)) | Ok(Cycled::Threw(r, _)) => {
            write_registers(registers, r);
            write_one(out, 0);
            0
        }
        Ok(Cycled::Stopped(r, x)) => {
            write_registers(registers, r);
            write_one(out, x);
            1
        }
    }
}

pub fn tell_ran(
    answer: Result<Ran, Refusal>,
    budget: u32,
    registers: &mut [u32],
    out: &mut [u32],
) -> u32
    requires in_bounds { 8 ≤ length registers.old }
    requires in_bounds_2 { 2 ≤ length out.old }
    ensures { machines.told registers.new out.new result ≡ machines.run_told registers.old out.old budget answer }
{
    match answer {
        // never reached: the call judges before it asks for this answer
        Err(n) => u32::from(n),
        Ok(Ran::Spent(r)) => {
            write_registers(registers, r);
            write_two(out, 0, budget);
            0
        }
        Ok(Ran::Stopped(r, x, done)) => {
            write_registers(registers, r);
            write_two(out, x, done);
            1
        }
    }
}
