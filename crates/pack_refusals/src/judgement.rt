// What refuses a packing, in document 01's order.
#![tactic(auto, using(crate::proofs::Judging::last_one), unfolding(crate::specs::Judgement::judge_order, crate::specs::Judgement::judge_room, crate::specs::Judgement::judge_input, crate::specs::Judgement::judge_image))]

ghost use Rattle.std.specs.Prelude.{◌≡◌, ◌≤◌};
ghost use Rattle.pack_refusals.specs.Judgement as judgement;

use cell::{Address, CellCount, Refusal};
use pack_judging::check::{judge_arrays, judge_place};
use pack_prepare::prepare::count_cells;

pub fn judge_order(order: u8) -> Result<(), Refusal>
    ensures { result ≡ judgement.judge_order order }
{
    if 1 < order {
        return Err(Refusal::ByteOrder);
    }
    Ok(())
}

// The room for an image in an output of some size.
pub fn judge_room(cells: CellCount, size: usize) -> Result<(), Refusal>
    ensures { result ≡ judgement.judge_room cells.0 size }
{
    if size < 4 * (cells.0 as usize) {
        return Err(Refusal::ShortOutput);
    }
    Ok(())
}

// The byte order and the input list, with which a packing begins.
pub fn judge_input(order: u8, kinds: &[u8], operands: &[u32]) -> Result<(), Refusal>
    ensures { result ≡ judgement.judge_input order kinds.now operands.now }
{
    judge_order(order)?;
    judge_arrays(kinds, operands)
}

// The base of an image and the room for it, once its size is known.
pub fn judge_image(base: Address, cells: CellCount, size: usize) -> Result<(), Refusal>
    requires { cells.0 ≤ 8192 }
    ensures { result ≡ judgement.judge_image base.0 cells.0 size }
{
    judge_place(base, cells)?;
    judge_room(cells, size)
}

// A packing into an output of some size.
#[tactic(auto, using(crate::proofs::Judging::input_checked, crate::proofs::Judging::pack_halves, pack_prepare::proofs::Checking::cells_most))]
pub fn judge_pack(
    order: u8,
    kinds: &[u8],
    operands: &[u32],
    base: Address,
    size: usize,
) -> Result<(), Refusal>
    ensures { result ≡ judgement.judge_pack order kinds.now operands.now base.0 size }
{
    judge_input(order, kinds, operands)?;
    judge_image(base, count_cells(kinds, operands), size)
}
