// The call for batches.
#![tactic(auto, unfolding(crate::specs::Batches::batch_call, batches::specs::Batches::batch_answer))]

ghost use Rattle.std.specs.Prelude.{◌≡◌};
ghost use Rattle.calls.specs.Modules.{moved};
ghost use Rattle.batches.specs.Batches.{common_of, forms_given};
ghost use Rattle.batch_calls.specs.Batches as batches;

use crate::notes::note_batched;
use areas::RegisterFile;
use batch_judging::judgement::judge_batch;
use batches::running::batch;
use cell::Address;
use lent_arrays::lending::no_place;
use machine::Table;

pub fn call_batch(
    order: u8,
    start: &[u8],
    memory: &mut [u8],
    forms: &[u8],
    count: u16,
    size: u32,
    address: Address,
    r: RegisterFile,
    table: Table,
    budget: u32,
    out: &mut [u32],
) -> u32
    ensures { moved memory.new out.new result ≡ batches.batch_call (common_of order start.now address.0 r table budget) memory.old (forms_given forms.now count size) out.old }
{
    if out.len() < 11 {
        return no_place(judge_batch(
            order,
            start.len(),
            memory.len(),
            r.areas,
            table,
            address,
            size,
            forms.len(),
            count,
        ));
    }
    let answer = batch(
        order, start, memory, forms, count, size, address, r, table, budget,
    );
    note_batched(answer, out)
}
