// Cycle and run. Neither requires anything: a bad memory length, a bad byte order, bad areas and a bad table are refused, and then nothing is written.
#![tactic(auto, using(bounds::proofs::BoundLaws::lent, bounds::proofs::BoundLaws::areas_pass, bounds::proofs::BoundLaws::passed_fits, cycles::proofs::RunLaws::one_cycle, crate::proofs::EntryLaws::done_is), unfolding(crate::specs::Answers::cycle_answer, crate::specs::Answers::run_answer))]

ghost use Rattle.std.specs.Prelude.{◌≡◌, ◌≤◌, ◌-◌};
ghost use Rattle.processor.specs.Answers as answers;

use crate::{Cycled, Ran};
use areas::{Areas, RegisterFile};
use bounds::bounding::machine_of;
use bounds::judging::judge_bounded;
use cell::Refusal;
use cycles::running::{Progress, run_cycles};
use machine::{CycleResult, Ended, Table};
use processor_start::entry::file;

fn cycled_as(areas: Areas, t: CycleResult) -> Cycled
    ensures { Ok result ≡ answers.cycled_as areas t.registers t.ended }
{
    let left = file(areas, t.registers);
    match t.ended {
        Ended::Went => Cycled::Went(left),
        Ended::Threw(e) => Cycled::Threw(left, e),
        Ended::Stopped(x) => Cycled::Stopped(left, x),
    }
}

pub fn cycle(order: u8, memory: &mut [u8], table: Table, r: RegisterFile) -> Result<Cycled, Refusal>
    ensures { answers.cycled_to r memory.new result ≡ answers.cycle_answer order table memory.old r }
{
    judge_bounded(memory.len(), order, r.areas, table)?;
    let machine = machine_of(order, r.areas, table, memory.len());
    let t = run_cycles(machine, memory, r.registers, 1);
    Ok(cycled_as(r.areas, t.result))
}

fn ran_as(areas: Areas, t: Progress, budget: u32) -> Ran
    requires { t.left ≤ budget }
    ensures { Ok result ≡ answers.ran_as areas t.result.registers (budget - t.left) t.result.ended }
{
    let left = file(areas, t.result.registers);
    match t.result.ended {
        Ended::Went | Ended::Threw(_) => Ran::Spent(left),
        Ended::Stopped(x) => Ran::Stopped(left, x, budget - t.left),
    }
}

pub fn run(
    order: u8,
    memory: &mut [u8],
    table: Table,
    r: RegisterFile,
    budget: u32,
) -> Result<Ran, Refusal>
    ensures { answers.ran_to r budget memory.new result ≡ answers.run_answer (answers.given_of order table memory.old r budget) }
{
    judge_bounded(memory.len(), order, r.areas, table)?;
    let machine = machine_of(order, r.areas, table, memory.len());
    let t = run_cycles(machine, memory, r.registers, budget);
    Ok(ran_as(r.areas, t, budget))
}
