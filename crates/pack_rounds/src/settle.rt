// Rounds of layout and marking.
ghost use Rattle.std.specs.Prelude.{◌≡◌, ◌<◌, ℕ, false, length};
ghost use Rattle.cell.specs.Memory.{cell_count};
ghost use Rattle.pack_layout.specs.Placed.{placed_at, Entered, marked_in, with_mark};
ghost use Rattle.pack_layout.specs.Listing.{listed, entry, Checked};
ghost use Rattle.pack_layout.specs.Layout.{Laid};
ghost use Rattle.pack_layout.specs.Packing.{marks as marks_of, layout, image_cells};

use crate::lay::lay_out;
use crate::mark::mark_branches;
use cell::CellCount;
use pack_layout::PlacedItem;

fn clear_marks(placed: &mut [PlacedItem])
    ensures { (j : ℕ) → j < length placed.old → placed_at placed.new j ≡ with_mark false (placed_at placed.old j) }
{
    for item in placed.iter_mut() {
        item.marked = false;
    }
}

// Rounds until one adds no mark. The answer is the number of cells of the image.
#[tactic(auto, using(crate::proofs::Settling::round_start, crate::proofs::Settling::marks_before))]
pub fn settle_marks(kinds: &[u8], operands: &[u32], placed: &mut [PlacedItem]) -> CellCount
    requires checked { Checked kinds.now operands.now }
    requires placed_len { length placed.old ≡ length kinds.now }
    requires entered { Entered placed.old (entry (listed kinds.now operands.now)) (length kinds.now) }
    ensures value { result ≡ cell_count (image_cells (listed kinds.now operands.now)) }
    ensures entered { Entered placed.new (entry (listed kinds.now operands.now)) (length kinds.now) }
    ensures marks_after { marked_in placed.new ≡ marks_of (listed kinds.now operands.now) }
    ensures laid { Laid (layout (listed kinds.now operands.now)) placed.new (length kinds.now) }
{
    clear_marks(placed);
    loop {
        let cells = lay_out(kinds, operands, placed);
        let added = mark_branches(kinds, operands, placed);
        if !added {
            break cells;
        }
    }
}
