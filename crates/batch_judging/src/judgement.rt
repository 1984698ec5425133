// What refuses a batch.
#![tactic(auto, using(crate::proofs::JudgementLaws::bytes_fit), unfolding(crate::specs::Grounds::judge_forms, crate::specs::Grounds::judge_batch))]

ghost use Rattle.std.specs.Prelude.{◌≡◌};
ghost use Rattle.batch_judging.specs.Grounds as grounds;

use areas::Areas;
use bounds::judging::judge_bounded;
use cell::{Address, Refusal};
use machine::Table;

// Where the forms go and what there is of them, once both memories have passed.
fn judge_forms(
    length: usize,
    address: Address,
    size: u32,
    forms: usize,
    count: u16,
) -> Result<(), Refusal>
    ensures { result ≡ grounds.judge_forms length address.0 size forms count }
{
    let end = address.0 as u64 + size as u64;
    if (length as u64) < end {
        return Err(Refusal::Outside);
    }
    let bytes = count as u64 * size as u64;
    if (forms as u64) < bytes {
        return Err(Refusal::ShortOutput);
    }
    Ok(())
}

// `length` is that of the start memory, `lent` that of the memory that the forms are run in, `forms` that of the buffer.
pub fn judge_batch(
    order: u8,
    length: usize,
    lent: usize,
    areas: Areas,
    table: Table,
    address: Address,
    size: u32,
    forms: usize,
    count: u16,
) -> Result<(), Refusal>
    ensures { result ≡ grounds.judge_batch order length lent areas table address.0 size forms count }
{
    if lent != length {
        return Err(Refusal::MemoryLength);
    }
    judge_bounded(length, order, areas, table)?;
    judge_forms(length, address, size, forms, count)
}
