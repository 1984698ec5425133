// The judgement of a call's input.
ghost use Rattle.std.specs.Prelude.{◌≡◌};
ghost use Rattle.cell.specs.Refusals as refusals;

use crate::Refusal;

// What every call on a lent memory judges first.
#[tactic(auto, unfolding(crate::specs::Refusals::judge_machine))]
pub fn judge_machine(length: usize, order: u8) -> Result<(), Refusal>
    ensures { result ≡ refusals.judge_machine length order }
{
    if length < 1024 || 16777216 < length || length % 4 != 0 {
        return Err(Refusal::MemoryLength);
    }
    if 1 < order {
        return Err(Refusal::ByteOrder);
    }
    Ok(())
}

impl From<Refusal> for u32 {
    ghost from_gives = { λ r n. n ≡ refusals.refusal_number r };

    fn from(r: Refusal) -> u32 {
        match r {
            Refusal::MemoryLength => 0xFFFFEFFB,
            Refusal::ByteOrder => 0xFFFFEFFA,
            Refusal::StackAreas => 0xFFFFEFF1,
            Refusal::Table => 0xFFFFEFF0,
            Refusal::Header => 0xFFFFFFFE,
            Refusal::FileLength => 0xFFFFEFF9,
            Refusal::Unaligned => 0xFFFFEFF8,
            Refusal::Outside => 0xFFFFFFFF,
            Refusal::ShortOutput => 0xFFFFEFF7,
            Refusal::ItemCount => 0xFFFFEFF6,
            Refusal::OperandCount => 0xFFFFEFE9,
            Refusal::Kind => 0xFFFFEFF5,
            Refusal::PlainOperand => 0xFFFFEFF4,
            Refusal::Target => 0xFFFFEFF3,
            Refusal::Base => 0xFFFFEFF2,
            Refusal::NoListing => 0xFFFFEFEC,
            Refusal::ModuleSet => 0xFFFFEFEF,
        }
    }
}

// The number of an answer: 0, or the refusal's number.
pub fn answer_number<T: Copy>(answer: Result<T, Refusal>) -> u32
    ensures { result ≡ refusals.answer_number answer }
{
    match answer {
        Ok(_) => 0,
        Err(r) => u32::from(r),
    }
}
