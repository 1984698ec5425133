// One layout of a listing.
ghost use Rattle.std.specs.Prelude.{◌≡◌, length};
ghost use Rattle.cell.specs.Memory.{cell_count};
ghost use Rattle.pack_layout.specs.Placed.{Entered, marked_in};
ghost use Rattle.pack_layout.specs.Listing.{listed, entry, Checked};
ghost use Rattle.pack_layout.specs.Layout.{cur, Laid};
ghost use Rattle.pack_layout.specs.Packing.{plan};

use crate::place::{begun, finished, form_of};
use cell::CellCount;
use pack_judging::kinds::class_of;
use pack_layout::{Cursor, PlacedItem};

// Lays all items out under the marks that they have. The answer is the number of cells.
#[tactic(auto, using(crate::proofs::Laying::lay_room, crate::proofs::Laying::lay_left, crate::proofs::Laying::lay_more, crate::proofs::Laying::lay_marks))]
pub fn lay_out(kinds: &[u8], operands: &[u32], placed: &mut [PlacedItem]) -> CellCount
    requires checked { Checked kinds.now operands.now }
    requires placed_len { length placed.old ≡ length kinds.now }
    requires entered { Entered placed.old (entry (listed kinds.now operands.now)) (length kinds.now) }
    ensures value { result ≡ cell_count (cur (plan (listed kinds.now operands.now) (marked_in placed.old)) (length kinds.now)).next }
    ensures laid { Laid (plan (listed kinds.now operands.now) (marked_in placed.old)) placed.new (length kinds.now) }
    ensures entered { Entered placed.new (entry (listed kinds.now operands.now)) (length kinds.now) }
    ensures marks { marked_in placed.new ≡ marked_in placed.old }
{
    let n = kinds.len();
    let mut c = Cursor {
        at: CellCount(0),
        free: 0,
        next: CellCount(0),
    };
    for i in 0..n {
        let item = &mut placed[i];
        let d = begun(c, item.entry);
        let f = d.free - 1;
        let g = form_of(class_of(kinds[i]), item.marked, operands[i], f);
        item.at = d.at;
        item.next = d.next;
        item.left = f as u8;
        c = finished(d, g);
    }
    c.next
}
