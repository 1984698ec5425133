// All items of an image.
ghost use Rattle.std.specs.Prelude.{◌≡◌, ℕ, ◌/◌, ◌≤◌, ◌<◌, length, get_or};
ghost use Rattle.pack_layout.specs.Reading.{cells_of, items_read};
ghost use Rattle.unpack_items.specs.Readers.{reader_of};
ghost use Rattle.unpack_reading.specs.Arrays.{first_noted, Filled};

use cell::{Address, CellCount};
use pack_layout::MOST_ITEMS;
use unpack_items::Reader;
use unpack_items::item::{at_cell, behind_item, read_item};

// Notes the item that begins a cell.
fn note_first(firsts: &mut [u16], r: Reader, i: usize)
    requires { (r.at.0 < length firsts.old) × (i < 4096) }
    ensures { firsts.new ≡ first_noted (reader_of r) firsts.old i }
{
    if r.first {
        let c = r.at.0 as usize;
        firsts[c] = i as u16;
    }
}

// Reads the items into lent arrays. The answer is their number, 4,097 if there are more than 4,096.
pub fn read_items(
    order: u8,
    image: &[u8],
    base: Address,
    kinds: &mut [u8],
    held: &mut [u32],
    firsts: &mut [u16],
) -> usize
    requires kinds_len { (length kinds.old ≡ 4096) × (length held.old ≡ 4096) × (length firsts.old ≡ length image.now / 4) }
    requires by_index { (c : ℕ) → c < length firsts.old → get_or firsts.old c 0 ≡ 4096 }
    ensures value { result ≡ items_read (cells_of order image.now) }
    ensures filled { result ≤ 4096 → Filled (cells_of order image.now) base.0 kinds.new held.new firsts.new result }
{
    let size = firsts.len();
    let mut r = at_cell(order, image, CellCount(0));
    for i in 0..MOST_ITEMS {
        if size <= r.at.0 as usize {
            return i;
        }
        let item = read_item(order, image, base, r);
        kinds[i] = item.kind;
        held[i] = item.held;
        note_first(firsts, r, i);
        r = behind_item(order, image, item.form, r);
    }
    if (r.at.0 as usize) < size {
        return MOST_ITEMS + 1;
    }
    MOST_ITEMS
}
