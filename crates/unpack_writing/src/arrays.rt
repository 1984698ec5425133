// A listing, written to the first places of lent arrays.
ghost use Rattle.std.specs.Prelude.{◌≡◌, ◌≤◌, length};
ghost use Rattle.unpack_judging.specs.Judgement as judgement;
ghost use Rattle.unpack_writing.specs.Writing.{over, over_if};

use cell::Refusal;
use unpack_judging::judgement::judge_arrays;

// Writes the kinds ks and the operands xs of a listing, unless an array is too short.
#[tactic(auto, using(crate::proofs::Room::arrays_room))]
pub fn write_listing(
    ks: &[u8],
    xs: &[u32],
    kinds: &mut [u8],
    operands: &mut [u32],
) -> Result<(), Refusal>
    requires { (length xs.now ≡ length ks.now) × (length ks.now ≤ 4096) }
    ensures value { result ≡ judgement.judge_arrays (length ks.now) (length kinds.old) (length operands.old) }
    ensures kinds_after { (kinds.new ≡ over_if result ks.now kinds.old) × (operands.new ≡ over_if result xs.now operands.old) }
{
    judge_arrays(ks.len() as u32, kinds.len(), operands.len())?;
    kinds[..ks.len()].copy_from_slice(ks);
    operands[..xs.len()].copy_from_slice(xs);
    Ok(())
}
