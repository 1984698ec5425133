// A batch: judged first, then form by form.
#![tactic(auto, using(batch_judging::proofs::JudgementLaws::batch_good), unfolding(crate::specs::Batches::batch_answer))]

ghost use Rattle.std.specs.Prelude.{◌≡◌, ◌+◌, ◌*◌, ◌≤◌, length};
ghost use Rattle.batch_reports.specs.Reports as reports;
ghost use Rattle.batch_reports.specs.Conditions as conditions;
ghost use Rattle.batches.specs.Batches as batches;

use areas::RegisterFile;
use batch_forms::laying::lay_form;
use batch_judging::judgement::judge_batch;
use batch_reports::tallying::{add, count_run, no_runs, report};
use batch_reports::{Report, Tally};
use cell::{Address, Refusal};
use machine::Table;
use processor::entry::run;

// All forms, one after another.
fn run_forms(
    order: u8,
    start: &[u8],
    memory: &mut [u8],
    forms: &[u8],
    count: u16,
    size: u32,
    address: Address,
    r: RegisterFile,
    table: Table,
    budget: u32,
) -> Tally
    requires memory_len { length memory.old ≡ length start.now }
    requires size_in_bounds { address.0 + size ≤ length start.now }
    requires size_in_bounds_2 { count * size ≤ length forms.now }
    ensures value { result ≡ reports.tally_of (batches.runs_in order start.now forms.now count size address.0 r table budget) }
    ensures memory_after { memory.new ≡ batches.last_memory memory.old (batches.runs_in order start.now forms.now count size address.0 r table budget) }
    ensures within { conditions.Within result × (result.forms ≤ 65535) }
{
    let bytes = size as usize;
    let mut t = no_runs();
    let mut at = 0;
    for _ in 0..count {
        let end = at + bytes;
        lay_form(start, &forms[at..end], address, memory);
        t = add(t, count_run(run(order, memory, table, r, budget), budget));
        at = end;
    }
    t
}

pub fn batch(
    order: u8,
    start: &[u8],
    memory: &mut [u8],
    forms: &[u8],
    count: u16,
    size: u32,
    address: Address,
    r: RegisterFile,
    table: Table,
    budget: u32,
) -> Result<Report, Refusal>
    ensures { batches.batched_to memory.new result ≡ batches.batch_answer (batches.common_of order start.now address.0 r table budget) memory.old (batches.forms_given forms.now count size) }
{
    judge_batch(
        order,
        start.len(),
        memory.len(),
        r.areas,
        table,
        address,
        size,
        forms.len(),
        count,
    )?;
    Ok(report(run_forms(
        order, start, memory, forms, count, size, address, r, table, budget,
    )))
}
