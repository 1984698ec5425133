// pack: a listing in two arrays.
ghost use Rattle.std.specs.Prelude.{◌≡◌, length};
ghost use Rattle.pack_layout.specs.Listing.{listed, Checked};
ghost use Rattle.pack_layout.specs.Packing.{image_cells};
ghost use Rattle.pack_refusals.specs.Judgement as judgement;
ghost use Rattle.packer.specs.Pack as answers;

use cell::{Address, CellCount, Refusal};
use pack_image::write::write_image;
use pack_layout::{MOST_ITEMS, PlacedItem, UNPLACED};
use pack_prepare::prepare::prepare;
use pack_refusals::judgement::{judge_image, judge_input};

// A listing that the input list passed, with the working array lent.
#[tactic(auto, using(pack_prepare::proofs::Checking::cells_most, crate::proofs::Answering::image_refused, crate::proofs::Answering::image_packed))]
fn pack_checked(
    order: u8,
    kinds: &[u8],
    operands: &[u32],
    base: Address,
    placed: &mut [PlacedItem],
    output: &mut [u8],
) -> Result<CellCount, Refusal>
    requires checked { Checked kinds.now operands.now }
    requires placed_len { length placed.old ≡ length kinds.now }
    ensures { answers.packed_to output.new result ≡ answers.pack_if (judgement.judge_image base.0 (image_cells (listed kinds.now operands.now)) (length output.old)) order base.0 (listed kinds.now operands.now) output.old }
{
    let cells = prepare(kinds, operands, placed);
    judge_image(base, cells, output.len())?;
    write_image(order, base, kinds, operands, placed, output);
    Ok(cells)
}

#[inline(never)]
#[tactic(auto, using(pack_prepare::proofs::Checking::items_most, pack_refusals::proofs::Judging::input_checked, crate::proofs::Answering::pack_refused, crate::proofs::Answering::pack_packed))]
pub fn pack(
    order: u8,
    kinds: &[u8],
    operands: &[u32],
    base: Address,
    output: &mut [u8],
) -> Result<CellCount, Refusal>
    ensures { answers.packed_to output.new result ≡ answers.pack_of order kinds.now operands.now base.0 output.old }
{
    judge_input(order, kinds, operands)?;
    let n = kinds.len();
    let mut placed = [UNPLACED; MOST_ITEMS];
    pack_checked(order, kinds, operands, base, &mut placed[0..n], output)
}
