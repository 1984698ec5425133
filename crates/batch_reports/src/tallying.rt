// The figures of a batch, run by run.
#![tactic(auto, using(crate::proofs::CountingLaws::mean_fits, crate::proofs::CountingLaws::rest_fits))]

ghost use Rattle.std.specs.Prelude.{◌≡◌, List, [], ◌∷◌, ℕ, ◌+◌, ◌≤◌};
ghost use Rattle.areas.specs.declared.RegisterFile.{RegisterFile};
ghost use Rattle.processor.specs.Answers as answers;
ghost use Rattle.batch_reports.specs.Reports as reports;
ghost use Rattle.batch_reports.specs.Conditions as conditions;

use crate::{Mean, Report, Tally};
use cell::Refusal;
use exceptions::fixed::{BAD_HANDLER, BAD_STACK};
use processor::Ran;

// Before any run.
pub fn no_runs() -> Tally
    ensures value { result ≡ reports.no_runs }
    ensures within { conditions.Within result }
{
    Tally {
        forms: 0,
        zeros: 0,
        stacks: 0,
        handlers: 0,
        others: 0,
        spent: 0,
        cycles: 0,
        largest: 0,
    }
}

// One run, of so many cycles; where it is counted.
fn one(zeros: u32, stacks: u32, handlers: u32, others: u32, spent: u32, cycles: u32) -> Tally
    requires { (zeros ≤ 1) × (stacks ≤ 1) × (handlers ≤ 1) × (others ≤ 1) × (spent ≤ 1) }
    ensures value { result ≡ conditions.one_of zeros stacks handlers others spent cycles }
    ensures within { conditions.Within result }
{
    Tally {
        forms: 1,
        zeros,
        stacks,
        handlers,
        others,
        spent,
        cycles: cycles as u64,
        largest: cycles,
    }
}

// One run, by its answer.
pub fn count_run(a: Result<Ran, Refusal>, budget: u32) -> Tally
    ensures value { (r : RegisterFile) (m : List ℕ) → result ≡ reports.tally_of (answers.ran_to r budget m a ∷ []) }
    ensures within { conditions.Within result }
{
    match a {
        // never reached in a batch that was accepted
        Err(_) => one(0, 0, 0, 0, 0, 0),
        Ok(Ran::Spent(_)) => one(0, 0, 0, 0, 1, budget),
        Ok(Ran::Stopped(_, 0, cycles)) => one(1, 0, 0, 0, 0, cycles),
        Ok(Ran::Stopped(_, BAD_STACK, cycles)) => one(0, 1, 0, 0, 0, cycles),
        Ok(Ran::Stopped(_, BAD_HANDLER, cycles)) => one(0, 0, 1, 0, 0, cycles),
        Ok(Ran::Stopped(_, _, cycles)) => one(0, 0, 0, 1, 0, cycles),
    }
}

// The figures of two lots of runs together.
pub fn add(s: Tally, t: Tally) -> Tally
    requires forms_bound { s.forms + t.forms ≤ 65535 }
    requires within { conditions.Within s × conditions.Within t }
    ensures value { result ≡ reports.added s t }
    ensures within_2 { conditions.Within result }
{
    Tally {
        forms: s.forms + t.forms,
        zeros: s.zeros + t.zeros,
        stacks: s.stacks + t.stacks,
        handlers: s.handlers + t.handlers,
        others: s.others + t.others,
        spent: s.spent + t.spent,
        cycles: s.cycles + t.cycles,
        largest: s.largest.max(t.largest),
    }
}

// The mean of the cycles, in whole numbers.
fn mean_of(t: Tally) -> Mean
    requires { conditions.Within t × (t.forms ≤ 65535) }
    ensures { result ≡ reports.mean_of t }
{
    let forms = t.forms as u64;
    if forms == 0 {
        return Mean {
            quotient: 0,
            remainder: 0,
        };
    }
    Mean {
        quotient: (t.cycles / forms) as u32,
        remainder: (t.cycles % forms) as u32,
    }
}

pub fn report(t: Tally) -> Report
    requires { conditions.Within t × (t.forms ≤ 65535) }
    ensures { result ≡ reports.reported t }
{
    Report {
        tally: t,
        mean: mean_of(t),
    }
}
