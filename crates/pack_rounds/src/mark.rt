// The marks that one layout adds.
ghost use Rattle.std.specs.Prelude.{◌≡◌, ◌<◌, ◌≤◌, true, length};
ghost use Rattle.pack_layout.specs.Kinds.{class_of, is_branch};
ghost use Rattle.pack_layout.specs.Bytes.{fits};
ghost use Rattle.pack_layout.specs.Placed.{placed_at, marked_in};
ghost use Rattle.pack_layout.specs.Listing.{listed, any, Checked};
ghost use Rattle.pack_layout.specs.Layout.{Laid};
ghost use Rattle.pack_layout.specs.Packing.{form_of, distance, new_of, plan, new, Marked};

use crate::measure::{distance_of, fits_in};
use crate::place::taken;
use cell::CellCount;
use pack_judging::kinds::class_of;
use pack_layout::{Class, ItemForm, ItemNumber, PlacedItem};

// The index of an item's cell.
pub fn place_of(placed: &[PlacedItem], item: ItemNumber) -> CellCount
    requires { item.0 < length placed.now }
    ensures { result ≡ (placed_at placed.now item.0).at }
{
    let i = item.0 as usize;
    placed[i].at
}

// Whether an item with operand x is an immediate branch that does not fit.
fn newly(kind: u8, x: u32, item: PlacedItem, placed: &[PlacedItem]) -> bool
    requires { (item.left ≤ 3) × (is_branch (class_of kind) ≡ true → x < length placed.now) }
    ensures { result ≡ new_of (class_of kind) (form_of (class_of kind) item.marked x item.left) (fits item.left (distance item.next.0 (placed_at placed.now x).at.0)) }
{
    let c = class_of(kind);
    match c {
        Class::Plain => false,
        Class::Literal => false,
        Class::Branch => {
            let left = item.left as u32;
            let g = taken(item.marked, left);
            match g {
                // never reached: `taken` gives one of the other two
                ItemForm::Alone => false,
                ItemForm::Immediate => {
                    let to = place_of(placed, ItemNumber(x));
                    let fit = fits_in(left, distance_of(item.next, to));
                    !fit
                }
                ItemForm::InCell => false,
            }
        }
        // never reached: the input list refuses a byte that is no kind
        Class::NoKind => false,
    }
}

// Marks every immediate branch that does not fit in the layout of the marks so far; the answer says whether there was one.
pub fn mark_branches(kinds: &[u8], operands: &[u32], placed: &mut [PlacedItem]) -> bool
    requires checked { Checked kinds.now operands.now }
    requires placed_len { length placed.old ≡ length kinds.now }
    requires laid { Laid (plan (listed kinds.now operands.now) (marked_in placed.old)) placed.old (length kinds.now) }
    ensures value { result ≡ any (new (listed kinds.now operands.now) (marked_in placed.old)) (length kinds.now) }
    ensures marked { Marked (listed kinds.now operands.now) placed.old placed.new (length kinds.now) }
{
    let n = kinds.len();
    let mut added = false;
    for i in 0..n {
        if newly(kinds[i], operands[i], placed[i], placed) {
            placed[i].marked = true;
            added = true;
        }
    }
    added
}
