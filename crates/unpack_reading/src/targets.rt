// The items that branches lead to.
ghost use Rattle.std.specs.Prelude.{◌≡◌, ℕ, ◌<◌, length, get_or};
ghost use Rattle.pack_layout.specs.Kinds.{class_of};
ghost use Rattle.unpack_reading.specs.Arrays.{item_in, operand_in};

use crate::NO_ITEM;
use cell::Address;
use cell::number::subtract;
use pack_judging::entries::is_branch;
use pack_layout::ItemNumber;

// The item that begins the cell at an address.
#[tactic(auto, using(crate::proofs::Finding::in_none, crate::proofs::Finding::in_behind, crate::proofs::Finding::in_cell))]
fn item_at(firsts: &[u16], base: Address, a: Address) -> ItemNumber
    ensures { result.0 ≡ item_in base.0 firsts.now a.0 }
{
    let d = subtract(a.0, base.0);
    let c = (d / 4) as usize;
    if d % 4 != 0 || firsts.len() <= c {
        return ItemNumber(NO_ITEM as u32);
    }
    ItemNumber(firsts[c] as u32)
}

// Puts the item's number where a branch holds an address.
pub fn find_targets(kinds: &[u8], operands: &mut [u32], firsts: &[u16], base: Address)
    requires { length operands.old ≡ length kinds.now }
    ensures operands_len_unchanged { length operands.new ≡ length operands.old }
    ensures by_index { (j : ℕ) → j < length operands.old → get_or operands.new j 0 ≡ operand_in (class_of (get_or kinds.now j 0)) base.0 firsts.now (get_or operands.old j 0) }
{
    for i in 0..operands.len() {
        if is_branch(kinds[i]) {
            let t = item_at(firsts, base, Address(operands[i]));
            operands[i] = t.0;
        }
    }
}
