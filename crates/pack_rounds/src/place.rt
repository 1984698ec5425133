// Where an item goes, and in which form.
ghost use Rattle.std.specs.Prelude.{◌≡◌, ◌-◌, ◌<◌, ◌≤◌};
ghost use Rattle.pack_layout.specs.Layout.{spot_of, opening, fresh, begin, finish};
ghost use Rattle.pack_layout.specs.Packing.{taking, form_of};

use crate::measure::fits_in;
use cell::CellCount;
use pack_layout::{Class, Cursor, ItemForm};

// The cursor when a new cell is open. An image has at most 8,192 cells.
fn open_cell(next: CellCount) -> Cursor
    requires { next.0 ≤ 8192 }
    ensures { spot_of result ≡ opening next.0 }
{
    Cursor {
        at: next,
        free: 4,
        next: CellCount(next.0 + 1),
    }
}

// The cursor when an item's cell is open.
pub fn begun(c: Cursor, entry: bool) -> Cursor
    requires { c.next.0 ≤ 8192 }
    ensures { spot_of result ≡ begin (fresh c.free entry) (spot_of c) }
{
    if c.free == 0 || entry {
        return open_cell(c.next);
    }
    c
}

// The cursor after an item in the form g.
pub fn finished(c: Cursor, g: ItemForm) -> Cursor
    requires { (0 < c.free) × (c.next.0 ≤ 8193) }
    ensures { spot_of result ≡ finish g (c.free - 1) (spot_of c) }
{
    let at = c.at;
    let next = c.next;
    match g {
        ItemForm::Alone => Cursor {
            at: at,
            free: c.free - 1,
            next: next,
        },
        ItemForm::Immediate => Cursor {
            at: at,
            free: 0,
            next: next,
        },
        ItemForm::InCell => Cursor {
            at: at,
            free: c.free - 1,
            next: CellCount(next.0 + 1),
        },
    }
}

// The form of a literal or a branch with f bytes left.
pub fn taken(marked: bool, f: u32) -> ItemForm
    ensures { result ≡ taking marked f }
{
    if f == 0 || marked {
        return ItemForm::InCell;
    }
    ItemForm::Immediate
}

// The form of an item with operand x and f bytes left.
pub fn form_of(c: Class, marked: bool, x: u32, f: u32) -> ItemForm
    requires { f ≤ 3 }
    ensures { result ≡ form_of c marked x f }
{
    match c {
        Class::Plain => ItemForm::Alone,
        Class::Literal => {
            let fit = fits_in(f, x);
            taken(!fit, f)
        }
        Class::Branch => taken(marked, f),
        // never reached: the input list refuses a byte that is no kind
        Class::NoKind => ItemForm::Alone,
    }
}
