// The entries and the settled layout of a listing that the input list passed.
#![tactic(auto, using(crate::proofs::Checking::items_most))]

ghost use Rattle.std.specs.Prelude.{◌≡◌, length};
ghost use Rattle.cell.specs.Memory.{cell_count};
ghost use Rattle.pack_layout.specs.Listing.{listed, Checked};
ghost use Rattle.pack_layout.specs.Packing.{image_cells};
ghost use Rattle.pack_prepare.specs.Prepared.{Prepared};

use cell::CellCount;
use pack_judging::entries::find_entries;
use pack_layout::{MOST_ITEMS, PlacedItem, UNPLACED};
use pack_rounds::settle::settle_marks;

// Fills the working array. The answer is the number of cells of the image.
pub fn prepare(kinds: &[u8], operands: &[u32], placed: &mut [PlacedItem]) -> CellCount
    requires checked { Checked kinds.now operands.now }
    requires placed_len { length placed.old ≡ length kinds.now }
    ensures value { result ≡ cell_count (image_cells (listed kinds.now operands.now)) }
    ensures prepared { Prepared kinds.now operands.now placed.new }
{
    find_entries(kinds, operands, placed);
    settle_marks(kinds, operands, placed)
}

// The number of cells of the image. Its working array goes with it before `pack` has its own: neither is laid into a caller, which would hold both.
#[inline(never)]
pub fn count_cells(kinds: &[u8], operands: &[u32]) -> CellCount
    requires { Checked kinds.now operands.now }
    ensures { result ≡ cell_count (image_cells (listed kinds.now operands.now)) }
{
    let n = kinds.len();
    let mut placed = [UNPLACED; MOST_ITEMS];
    prepare(kinds, operands, &mut placed[0..n])
}
