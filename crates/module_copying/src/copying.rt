// The copy of cells, in one pass and with no second buffer.
#![tactic(auto, using(crate::proofs::CopyLaws::copied_length), unfolding(crate::specs::Copies::copied))]

ghost use Rattle.std.specs.Prelude.{◌≡◌, ◌+◌, ◌*◌, ◌≤◌, length};
ghost use Rattle.module_copying.specs.Copies as copies;

use cell::memory::{load_at, store_at};
use cell::{Address, CellCount};

// The first `count` cells of a code part go from the position `at` on, first cell first, each read in `theirs` and stored in `ours`.
pub fn copy_at(theirs: u8, ours: u8, code: &[u8], bytes: &mut [u8], at: usize, count: CellCount)
    requires count_in_bounds { 4 * count.0 ≤ length code.now }
    requires count_in_bounds_2 { at + 4 * count.0 ≤ length bytes.old }
    ensures { bytes.new ≡ copies.copied theirs ours code.now bytes.old at count.0 }
{
    for k in 0..count.0 as usize {
        let x = load_at(theirs, code, 4 * k);
        store_at(ours, bytes, at + 4 * k, x);
    }
}

// The same into memory, from the byte address `to` on.
pub fn copy_cells(
    theirs: u8,
    ours: u8,
    code: &[u8],
    memory: &mut [u8],
    to: Address,
    count: CellCount,
)
    requires count_in_bounds { 4 * count.0 ≤ length code.now }
    requires count_in_bounds_2 { to.0 + 4 * count.0 ≤ length memory.old }
    ensures { memory.new ≡ copies.copied theirs ours code.now memory.old to.0 count.0 }
{
    copy_at(theirs, ours, code, memory, to.0 as usize, count)
}
