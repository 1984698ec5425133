// The commit of a request: every place is checked in the order of the stores, and only then are they made.
#![tactic(auto, using(machine::proofs::CommitLaws::commit_raising, machine::proofs::CommitLaws::commit_bad, machine::proofs::CommitLaws::commit_good))]

ghost use Rattle.std.specs.Prelude.{◌≡◌, length};
ghost use Rattle.machine.specs.Places as places;
ghost use Rattle.machine.specs.Effects as effects;
ghost use Rattle.machine.specs.Commits as commits;

use crate::stores::Stores;
use cell::Fault;
use machine::{Machine, Outcome, Registers, Request, Step, Then};

// How the machine is left by what follows.
fn outcome_of(then: Then) -> Outcome
    ensures { result ≡ commits.outcome_of then }
{
    match then {
        Then::GoOn => Outcome::Went,
        Then::Jump(_) => Outcome::Next,
        Then::Halt(x) => Outcome::Halt(x),
        Then::Throw => Outcome::Throw,
    }
}

fn ep_of(then: Then, ep: u32) -> u32
    ensures { result ≡ commits.ep_of then ep }
{
    match then {
        Then::GoOn => ep,
        Then::Jump(to) => to.0,
        Then::Halt(_) => ep,
        Then::Throw => ep,
    }
}

// What follows the writes.
pub fn settle(ep: u32, a: u32, sp: u32, rp: u32, then: Then) -> Step
    ensures { result ≡ commits.settled_of ep a sp rp then }
{
    Step {
        registers: Registers {
            ep: ep_of(then, ep),
            a,
            sp,
            rp,
        },
        outcome: outcome_of(then),
    }
}

// The commit of a request with no store. It needs no more of memory than to read it, and nothing of the machine.
#[inline]
#[tactic(auto, using(machine::proofs::CommitLaws::commit_raising), unfolding(machine::specs::Commits::places_of, machine::specs::Commits::stored_of, machine::specs::Commits::commit_of))]
pub fn commit_none(
    machine: Machine,
    memory: &[u8],
    r: Registers,
    asked: Result<Request<()>, Fault>,
) -> Result<Step, Fault>
    ensures { commits.stepped memory.now (commits.step_of r result) ≡ commits.commit_of machine memory.now r (effects.asked effects.no_store asked) }
{
    let Request { sp, rp, then, .. } = asked?;
    Ok(settle(r.ep, r.a, sp, rp, then))
}

#[inline]
pub fn commit<S: Stores>(
    machine: Machine,
    memory: &mut [u8],
    r: Registers,
    asked: Result<Request<S>, Fault>,
) -> Result<Step, Fault>
    requires { places.Fits machine (length memory.old) }
    ensures { commits.stepped memory.new (commits.step_of r result) ≡ commits.commit_of machine memory.old r (effects.asked (S.listed machine.order memory.old) asked) }
{
    let q = asked?;
    q.stores.check(machine, memory)?;
    q.stores.write(machine, memory);
    Ok(settle(r.ep, r.a, q.sp, q.rp, q.then))
}
