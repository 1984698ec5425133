// The entries of a listing.
ghost use Rattle.std.specs.Prelude.{◌≡◌, ◌<◌, length, get_or};
ghost use Rattle.pack_layout.specs.Kinds.{class_of, is_branch};
ghost use Rattle.pack_layout.specs.Placed.{Entered, EntriesAlone};
ghost use Rattle.pack_layout.specs.Listing.{listed, calls, after_call, entry, Checked};

use crate::kinds::class_of;
use pack_layout::{Class, ItemNumber, PlacedItem};

// Whether a kind is EXECUTE, @EXECUTE or CALL.
pub fn is_call(kind: u8) -> bool
    ensures { result ≡ calls kind }
{
    0x46 <= kind && kind <= 0x48
}

pub fn is_branch(kind: u8) -> bool
    ensures { result ≡ is_branch (class_of kind) }
{
    matches!(class_of(kind), Class::Branch)
}

// Item 0, and each item after a call.
fn after_calls(kinds: &[u8], placed: &mut [PlacedItem])
    requires { (0 < length kinds.now) × (length placed.old ≡ length kinds.now) }
    ensures entered { Entered placed.new (after_call (λ i. get_or kinds.now i 0)) (length kinds.now) }
    ensures rest { EntriesAlone placed.old placed.new }
{
    let n = kinds.len();
    placed[0].entry = true;
    for i in 1..n {
        placed[i].entry = is_call(kinds[i - 1]);
    }
}

// Each branch's target.
#[tactic(auto, using(crate::proofs::Passes::targets_none, crate::proofs::Passes::target_inside))]
fn add_targets(kinds: &[u8], operands: &[u32], placed: &mut [PlacedItem])
    requires checked { Checked kinds.now operands.now }
    requires placed_len { (length placed.old ≡ length kinds.now) × Entered placed.old (after_call (λ i. get_or kinds.now i 0)) (length kinds.now) }
    ensures entered { Entered placed.new (entry (listed kinds.now operands.now)) (length kinds.now) }
    ensures rest { EntriesAlone placed.old placed.new }
{
    let n = kinds.len();
    for j in 0..n {
        if is_branch(kinds[j]) {
            let target = ItemNumber(operands[j]);
            placed[target.0 as usize].entry = true;
        }
    }
}

// Every entry.
#[tactic(auto, using(pack_layout::proofs::Listing::some_item))]
pub fn find_entries(kinds: &[u8], operands: &[u32], placed: &mut [PlacedItem])
    requires checked { Checked kinds.now operands.now }
    requires placed_len { length placed.old ≡ length kinds.now }
    ensures entered { Entered placed.new (entry (listed kinds.now operands.now)) (length kinds.now) }
    ensures rest { EntriesAlone placed.old placed.new }
{
    after_calls(kinds, placed);
    add_targets(kinds, operands, placed);
}
