// Values of items, and whether they fit a few signed bytes.
ghost use Rattle.std.specs.Prelude.{◌≡◌, ◌+◌, ◌^◌, ◌<◌, ◌≤◌, ◌&&◌, ◌||◌, nat_le, nat_lt};
ghost use Rattle.pack_layout.specs.Bytes.{fits};
ghost use Rattle.pack_layout.specs.Packing.{distance, value_of};

use cell::place::address_at;
use cell::{Address, CellCount};
use pack_layout::{Class, ItemForm};

// Whether a cell, as a signed number, is at least -h and below h.
fn within(x: u32, h: u32) -> bool
    requires { (0 < h) × (h ≤ 0x800000) }
    ensures { result ≡ (nat_lt x h || (nat_le (2 ^ 32) (x + h) && nat_lt x (2 ^ 32))) }
{
    if x < h {
        return true;
    }
    0xFFFF_FFFF - h < x
}

// Whether a cell fits f signed bytes, at most three.
#[tactic(auto, unfolding(pack_layout::specs::Bytes::fits))]
pub fn fits_in(f: u32, x: u32) -> bool
    requires { f ≤ 3 }
    ensures { result ≡ fits f x }
{
    match f {
        0 => x == 0,
        1 => within(x, 0x80),
        2 => within(x, 0x8000),
        _ => within(x, 0x800000),
    }
}

// The immediate value of a branch: cells from its EP value, at the index next, to its target.
pub fn distance_of(next: CellCount, to: CellCount) -> u32
    ensures { result ≡ distance next.0 to.0 }
{
    to.0.wrapping_sub(next.0)
}

// The value of an item with operand x. The base is legal, and an image has at most 8,192 cells.
pub fn value_of(c: Class, g: ItemForm, x: u32, next: CellCount, to: CellCount, base: Address) -> u32
    requires { (base.0 ≤ 16777216) × (to.0 ≤ 8192) }
    ensures { result ≡ value_of c g x next.0 to.0 base.0 }
{
    match c {
        Class::Plain => 0,
        Class::Literal => x,
        Class::Branch => match g {
            // never reached: a branch has a value, in one form or the other
            ItemForm::Alone => 0,
            ItemForm::Immediate => distance_of(next, to),
            ItemForm::InCell => {
                let target = address_at(base, to);
                target.0
            }
        },
        // never reached: the input list refuses a byte that is no kind
        Class::NoKind => 0,
    }
}
