// What refuses an unpacking by its numbers alone.
#![tactic(auto, unfolding(crate::specs::Judgement::judge_place, crate::specs::Judgement::judge_arrays))]

ghost use Rattle.std.specs.Prelude.{◌≡◌};
ghost use Rattle.unpack_judging.specs.Judgement as judgement;

use cell::{Address, Refusal};
use pack_refusals::judgement::judge_order;

// The byte order and the base of an image of some bytes.
pub fn judge_place(order: u8, base: Address, size: usize) -> Result<(), Refusal>
    ensures { result ≡ judgement.judge_place order base.0 size }
{
    judge_order(order)?;
    if base.0 % 4 != 0 {
        return Err(Refusal::Unaligned);
    }
    if base.0 < 0x10 || 16777216 < size || 16777216 - size < base.0 as usize {
        return Err(Refusal::Base);
    }
    Ok(())
}

// The room for n items in two arrays.
pub fn judge_arrays(n: u32, kinds: usize, operands: usize) -> Result<(), Refusal>
    ensures { result ≡ judgement.judge_arrays n kinds operands }
{
    if kinds < n as usize || operands < n as usize {
        return Err(Refusal::ShortOutput);
    }
    Ok(())
}
