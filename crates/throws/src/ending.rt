// NEXT, the throw, the stops.
#![tactic(auto, using(machine::proofs::CommitLaws::room_place), unfolding(crate::specs::Throws::handler_of, crate::specs::Throws::throw_of, crate::specs::Throws::throwing_of, crate::specs::Throws::next_of, crate::specs::Throws::finish_of))]

ghost use Rattle.std.specs.Prelude.{◌≡◌, ◌≤◌, length};
ghost use Rattle.machine.specs.Places as places;
ghost use Rattle.machine.specs.Commits as commits;
ghost use Rattle.exceptions.specs.Exceptions as exceptions;
ghost use Rattle.throws.specs.Throws as throws;

use cell::Address;
use cell::memory::{load, store};
use cell::number::{add, subtract};
use exceptions::fixed::{ADDRESS_CELL, BAD_CELL, BAD_HANDLER, BAD_STACK, HANDLER_CELL};
use exceptions::{code_of, tell};
use machine::places::{check_push, fetch};
use machine::{CycleResult, Ended, Exception, Machine, Outcome, Registers, Step};

// The registers once A is the cell at h.
fn enter(h: Address, x: u32, r: Registers) -> Registers
    ensures { result ≡ throws.entered h.0 x r }
{
    Registers {
        ep: add(h.0, 4),
        a: x,
        sp: r.sp,
        rp: r.rp,
    }
}

// The machine stops with a reason, in the registers that it has.
fn stop(r: Registers, reason: u32) -> CycleResult
    ensures { result ≡ throws.stopped r reason }
{
    CycleResult {
        registers: r,
        ended: Ended::Stopped(reason),
    }
}

// EP takes 'THROW and NEXT follows, or the machine stops with -259.
fn to_handler(
    machine: Machine,
    memory: &[u8],
    r: Registers,
    ended: Ended,
    h: Address,
) -> CycleResult
    requires { places.Fits machine (length memory.now) }
    ensures { throws.with_result memory.now result ≡ throws.to_handler machine memory.now r ended h.0 }
{
    match fetch(machine, memory, h) {
        Ok(x) => CycleResult {
            registers: enter(h, x, r),
            ended,
        },
        Err(_) => stop(r, BAD_HANDLER),
    }
}

// 'BAD takes EP, then the handler.
pub fn handle(machine: Machine, memory: &mut [u8], r: Registers, ended: Ended) -> CycleResult
    requires fits { places.Fits machine (length memory.old) }
    requires in_bounds { 16 ≤ length memory.old }
    ensures { throws.with_result memory.new result ≡ throws.handler_of machine memory.old r ended }
{
    store(machine.order, memory, BAD_CELL, r.ep);
    let h = load(machine.order, memory, HANDLER_CELL);
    to_handler(machine, memory, r, ended, Address(h))
}

// -ADDRESS is set by -9 and -23 alone.
fn note(machine: Machine, memory: &mut [u8], e: Exception)
    requires { 16 ≤ length memory.old }
    ensures { memory.new ≡ throws.noted machine memory.old e }
{
    match e {
        Exception::Range(a) | Exception::Alignment(a) => {
            store(machine.order, memory, ADDRESS_CELL, a.0)
        }
        _ => {}
    }
}

// A throw. The code comes with its exception: found here, it would make the throw too long to be laid into the loop of a run.
pub fn throw(
    machine: Machine,
    memory: &mut [u8],
    r: Registers,
    e: Exception,
    code: u32,
) -> CycleResult
    requires fits { places.Fits machine (length memory.old) }
    requires in_bounds { 16 ≤ length memory.old }
    requires code_value { code ≡ exceptions.exception_code e }
    ensures { throws.with_result memory.new result ≡ throws.throw_of machine memory.old r e }
{
    let sp = subtract(r.sp, 4);
    let Ok(()) = check_push(machine, memory.len(), Address(sp)) else {
        return stop(r, BAD_STACK);
    };
    note(machine, memory, e);
    store(machine.order, memory, Address(sp), code);
    handle(machine, memory, Registers { sp, ..r }, Ended::Threw(e))
}

// THROW, 54h.
fn throw_given(machine: Machine, memory: &mut [u8], r: Registers) -> CycleResult
    requires fits { places.Fits machine (length memory.old) }
    requires in_bounds { 16 ≤ length memory.old }
    ensures { throws.with_result memory.new result ≡ throws.throwing_of machine memory.old r }
{
    if r.sp % 4 == 0 {
        return handle(machine, memory, r, Ended::Went);
    }
    stop(r, BAD_STACK)
}

pub fn next(machine: Machine, memory: &mut [u8], r: Registers) -> CycleResult
    requires fits { places.Fits machine (length memory.old) }
    requires in_bounds { 16 ≤ length memory.old }
    ensures { throws.with_result memory.new result ≡ throws.next_of machine memory.old r }
{
    match fetch(machine, memory, Address(r.ep)) {
        Ok(x) => CycleResult {
            registers: enter(Address(r.ep), x, r),
            ended: Ended::Went,
        },
        Err(f) => {
            let e = tell(machine, f);
            throw(machine, memory, r, e, code_of(e))
        }
    }
}

// The rest of a cycle.
pub fn finish(machine: Machine, memory: &mut [u8], s: Step) -> CycleResult
    requires fits { places.Fits machine (length memory.old) }
    requires in_bounds { 16 ≤ length memory.old }
    ensures { throws.with_result memory.new result ≡ throws.finish_of machine (commits.stepped memory.old s) }
{
    let r = s.registers;
    match s.outcome {
        // never reached: the loop of a run takes these registers itself
        Outcome::Went => CycleResult {
            registers: r,
            ended: Ended::Went,
        },
        // never reached: a run's cycle has made NEXT's fetch before
        Outcome::Next => next(machine, memory, r),
        Outcome::Raise(f) => {
            let e = tell(machine, f);
            throw(machine, memory, r, e, code_of(e))
        }
        Outcome::Halt(x) => stop(r, x),
        Outcome::Throw => throw_given(machine, memory, r),
    }
}
