// Start. It requires nothing: a bad memory length, a bad byte order, bad areas and a bad table are refused, and then nothing is written.
#![tactic(auto, using(bounds::proofs::BoundLaws::lent, bounds::proofs::BoundLaws::areas_pass, bounds::proofs::BoundLaws::passed_fits), unfolding(crate::specs::Starting::start_of, crate::specs::Answers::start_answer))]

ghost use Rattle.std.specs.Prelude.{◌≡◌, ◌≤◌, length};
ghost use Rattle.machine.specs.Places as places;
ghost use Rattle.throws.specs.Throws as throws;
ghost use Rattle.areas.specs.Areas.{filed};
ghost use Rattle.processor_start.specs.Starting as starting;
ghost use Rattle.processor_start.specs.Answers as answers;

use crate::Started;
use areas::{Areas, RegisterFile};
use bounds::bounding::{first_rp, first_sp, machine_of};
use bounds::judging::judge_bounded;
use cell::memory::store;
use cell::{Address, Refusal};
use exceptions::fixed::{ADDRESS_CELL, BAD_CELL, HANDLER_CELL, MEMORY_CELL};
use machine::{CycleResult, Ended, Machine, Registers, Table};
use throws::ending::next;

// The four cells at the start of memory, the registers, then NEXT.
fn begin(
    machine: Machine,
    memory: &mut [u8],
    ep: Address,
    handler: Address,
    sp: u32,
    rp: u32,
) -> CycleResult
    requires fits { places.Fits machine (length memory.old) }
    requires in_bounds { 1024 ≤ length memory.old }
    ensures { throws.with_result memory.new result ≡ starting.start_of machine memory.old ep.0 handler.0 sp rp }
{
    let length = memory.len() as u32;
    store(machine.order, memory, HANDLER_CELL, handler.0);
    store(machine.order, memory, MEMORY_CELL, length);
    store(machine.order, memory, BAD_CELL, 0xFFFFFFFF);
    store(machine.order, memory, ADDRESS_CELL, 0xFFFFFFFF);
    next(
        machine,
        memory,
        Registers {
            ep: ep.0,
            a: 0,
            sp,
            rp,
        },
    )
}

// The registers that cycles moved, beside the areas as given.
pub fn file(areas: Areas, r: Registers) -> RegisterFile
    ensures { result ≡ filed areas r }
{
    RegisterFile {
        registers: r,
        areas,
    }
}

fn started_as(areas: Areas, t: CycleResult) -> Started
    ensures { Ok result ≡ answers.started_as areas t.registers t.ended }
{
    let left = file(areas, t.registers);
    match t.ended {
        Ended::Went | Ended::Threw(_) => Started::Ready(left),
        Ended::Stopped(x) => Started::Stopped(left, x),
    }
}

pub fn start(
    order: u8,
    memory: &mut [u8],
    ep: Address,
    handler: Address,
    areas: Areas,
    table: Table,
) -> Result<Started, Refusal>
    ensures { answers.started_to memory.new result ≡ answers.start_answer order areas table memory.old ep.0 handler.0 }
{
    judge_bounded(memory.len(), order, areas, table)?;
    let sp = first_sp(memory.len(), areas);
    let rp = first_rp(memory.len(), areas);
    let machine = machine_of(order, areas, table, memory.len());
    Ok(started_as(areas, begin(machine, memory, ep, handler, sp, rp)))
}
