// The entry that an address leads to.
#![tactic(auto, using(crate::proofs::EntryLaws::entry_here, crate::proofs::EntryLaws::entry_before, crate::proofs::EntryLaws::entry_none))]

ghost use Rattle.std.specs.Prelude.{◌≡◌, ◌&&◌, ◌+◌, ◌*◌, ◌<◌, eqb};
ghost use Rattle.list_tables.specs.Tables as tables;
ghost use Rattle.list_judging.specs.Ways as ways;

use crate::Way;
use cell::Address;
use cell::place::address_at;
use list_machine::Outside;
use list_tables::ItemRow;
use list_tables::tables::row_of;
use pack_layout::ItemNumber;

// An item is an entry whose cell is at this address.
fn is_placed(table: &[ItemRow], base: Address, item: ItemNumber, a: Address) -> bool
    requires near { tables.Near table.now base.0 }
    requires item_bound { item.0 < tables.rows table.now }
    ensures { result ≡ (tables.entry_in table.now item.0 && eqb (base.0 + 4 * tables.place_in table.now item.0) a.0) }
{
    let row = row_of(table, item);
    row.entry && address_at(base, row.at).0 == a.0
}

pub fn entry_at(table: &[ItemRow], base: Address, a: Address) -> Option<ItemNumber>
    requires { tables.Near table.now base.0 }
    ensures { result ≡ tables.entry_below table.now base.0 (tables.rows table.now) a.0 }
{
    for i in (0..table.len()).rev() {
        let item = ItemNumber(i as u32);
        if is_placed(table, base, item, a) {
            return Some(item);
        }
    }
    None
}

// In front of the entry that was found, or outside.
pub fn to_entry(why: Outside, e: Option<ItemNumber>) -> Way
    ensures { result ≡ ways.to_entry why e }
{
    match e {
        Some(i) => Way::To(i, false),
        None => Way::Outside(why),
    }
}
