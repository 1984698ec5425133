// One cycle, and a number of them.
#![tactic(auto, unfolding(throws::specs::Throws::finish_of, throws::specs::Throws::next_of, crate::specs::Cycles::cycle_of))]

ghost use Rattle.std.specs.Prelude.{◌≡◌, ◌≤◌, ◌+◌, length, IfOk, IfErr};
ghost use Rattle.machine.specs.Commits as commits;
ghost use Rattle.machine.specs.Places as places;
ghost use Rattle.throws.specs.Throws as throws;
ghost use Rattle.cycles.specs.Cycles as cycles;
ghost use Rattle.cycles.specs.Counts as counts;
ghost use Rattle.cycles.specs.Running as running;

use cell::Address;
use cell::number::{add, shift_byte};
use dispatch::from_00::execute_from_00;
use machine::places::fetch;
use machine::{CycleResult, Ended, Machine, Outcome, Registers, Step};
use throws::ending::finish;

// What a run has left of its budget, and how its last cycle ended.
#[derive(Clone, Copy)]
pub struct Progress {
    pub result: CycleResult,
    pub left: u32,
}

// NEXT's fetch, where the instruction asks for it. What is still to be done of the cycle is then nothing, a throw or a stop.
fn fetch_next(machine: Machine, memory: &[u8], s: Step) -> Step
    requires { places.Fits machine (length memory.now) }
    ensures { throws.finish_of machine (commits.stepped memory.now result) ≡ throws.finish_of machine (commits.stepped memory.now s) }
{
    let Outcome::Next = s.outcome else {
        return s;
    };
    let r = s.registers;
    match fetch(machine, memory, Address(r.ep)) {
        Ok(x) => Step {
            registers: Registers {
                ep: add(r.ep, 4),
                a: x,
                ..r
            },
            outcome: Outcome::Went,
        },
        Err(f) => Step {
            registers: r,
            outcome: Outcome::Raise(f),
        },
    }
}

// A cycle but for its throw or stop.
fn execute(machine: Machine, memory: &mut [u8], r: Registers) -> Step
    requires fits { places.Fits machine (length memory.old) }
    requires in_bounds { 16 ≤ length memory.old }
    ensures { throws.finish_of machine (commits.stepped memory.new result) ≡ cycles.cycle_of machine memory.old r }
{
    let shifted = Registers {
        a: shift_byte(r.a),
        ..r
    };
    match execute_from_00(machine, memory, shifted, r.a % 256) {
        Ok(s) => fetch_next(machine, memory, s),
        Err(f) => Step {
            registers: shifted,
            outcome: Outcome::Raise(f),
        },
    }
}

// Whether a run ends with this cycle: it stopped, or it threw and the budget is spent.
fn is_last(ended: Ended, left: u32) -> bool
    ensures { result ≡ counts.is_last ended left }
{
    match ended {
        Ended::Went => false,
        Ended::Threw(_) => left == 0,
        Ended::Stopped(_) => true,
    }
}

// A cycle that does not simply go on: what is still to be done of it, and what is left of the budget.
#[derive(Clone, Copy)]
struct Stall {
    step: Step,
    left: u32,
}

// It stands out of line, so that the loop of a run is laid out for cycles that go on.
#[cold]
#[inline(never)]
fn stop_at(step: Step, left: u32) -> Stall
    ensures step_value { result.step ≡ step }
    ensures left_value { result.left ≡ left }
{
    Stall { step, left }
}

// Cycles that simply go on, until one does not or the budget is spent. All that is done of a cycle here is what most cycles want, so that the loop holds
// nothing else.
#[inline(never)]
fn go_on(machine: Machine, memory: &mut [u8], r: Registers, budget: u32) -> Result<Registers, Stall>
    requires fits { places.Fits machine (length memory.old) }
    requires in_bounds { 16 ≤ length memory.old }
    ensures spent { IfOk result (λ last. running.Looping machine memory.old r budget memory.new last 0) }
    ensures stalled { IfErr result (λ stall. running.Stalled machine memory.old r budget memory.new stall.step stall.left) }
{
    let mut registers = r;
    let mut left = budget;
    while 0 < left {
        let step = execute(machine, memory, registers);
        let Outcome::Went = step.outcome else {
            let last = step.registers;
            // a copy, so that a cycle that goes on keeps its registers out of memory
            let apart = Step {
                registers: Registers {
                    ep: last.ep,
                    a: last.a,
                    sp: last.sp,
                    rp: last.rp,
                },
                outcome: step.outcome,
            };
            return Err(stop_at(apart, left - 1));
        };
        registers = step.registers;
        left -= 1;
    }
    Ok(registers)
}

// Cycles until one stops or the budget is spent.
pub fn run_cycles(machine: Machine, memory: &mut [u8], r: Registers, budget: u32) -> Progress
    requires fits { places.Fits machine (length memory.old) }
    requires in_bounds { 16 ≤ length memory.old }
    ensures r_value { result.left + counts.done_of machine budget (counts.begun memory.old r) ≡ budget }
    ensures result_after { throws.with_result memory.new result.result ≡ cycles.cycles_of machine (counts.done_of machine budget (counts.begun memory.old r)) (counts.begun memory.old r) }
{
    let mut registers = r;
    let mut left = budget;
    while left > 0 {
        match go_on(machine, memory, registers, left) {
            Ok(last) => {
                registers = last;
                left = 0;
            }
            Err(stall) => {
                let result = finish(machine, memory, stall.step);
                if is_last(result.ended, stall.left) {
                    return Progress {
                        result,
                        left: stall.left,
                    };
                }
                registers = result.registers;
                left = stall.left;
            }
        }
    }
    Progress {
        result: CycleResult {
            registers,
            ended: Ended::Went,
        },
        left: 0,
    }
}
