// The input list, and the base of an image: what refuses a listing.
#![tactic(auto, unfolding(pack_layout::specs::Listing::judged_listing, pack_layout::specs::Listing::judged_arrays))]

ghost use Rattle.std.specs.Prelude.{◌≡◌, ◌≤◌, length};
ghost use Rattle.pack_layout.specs.Listing.{listed, judged, judged_from, judged_arrays};
ghost use Rattle.pack_layout.specs.Packing.{judged_place};

use crate::kinds::class_of;
use cell::{Address, CellCount, Refusal};
use pack_layout::{Class, MOST_ITEMS};

// One item of n, of class c and with operand x.
pub fn judge_item(c: Class, n: u32, x: u32) -> Result<(), Refusal>
    ensures { result ≡ judged c n x }
{
    match c {
        Class::Plain => {
            if x != 0 {
                return Err(Refusal::PlainOperand);
            }
            Ok(())
        }
        Class::Literal => Ok(()),
        Class::Branch => {
            if n <= x {
                return Err(Refusal::Target);
            }
            Ok(())
        }
        Class::NoKind => Err(Refusal::Kind),
    }
}

// Every item, lowest first.
#[tactic(auto, using(crate::proofs::Steps::judged_step, crate::proofs::Steps::judged_end))]
pub fn judge_items(kinds: &[u8], operands: &[u32]) -> Result<(), Refusal>
    requires { (length kinds.now ≡ length operands.now) × (length kinds.now ≤ 4096) }
    ensures { result ≡ judged_from (listed kinds.now operands.now) (length kinds.now) 0 }
{
    let n = kinds.len();
    for i in 0..n {
        judge_item(class_of(kinds[i]), n as u32, operands[i])?;
    }
    Ok(())
}

// A listing in two arrays.
pub fn judge_arrays(kinds: &[u8], operands: &[u32]) -> Result<(), Refusal>
    ensures { result ≡ judged_arrays kinds.now operands.now }
{
    let n = kinds.len();
    if n != operands.len() || n == 0 || MOST_ITEMS < n {
        return Err(Refusal::ItemCount);
    }
    judge_items(kinds, operands)
}

// The base of an image.
pub fn judge_place(base: Address, cells: CellCount) -> Result<(), Refusal>
    requires { cells.0 ≤ 8192 }
    ensures { result ≡ judged_place base.0 cells.0 }
{
    if base.0 % 4 != 0 {
        return Err(Refusal::Unaligned);
    }
    if base.0 < 0x10 || 16777216 < base.0 as u64 + 4 * (cells.0 as u64) {
        return Err(Refusal::Base);
    }
    Ok(())
}
