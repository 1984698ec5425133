// The table of a settled layout, read by the number of an item.
ghost use Rattle.std.specs.Prelude.{◌≡◌, ◌<◌, length};
ghost use Rattle.list_tables.specs.Tables as tables;

use crate::ItemRow;
use pack_layout::ItemNumber;

// The row of an item.
pub fn row_of(table: &[ItemRow], item: ItemNumber) -> ItemRow
    requires { item.0 < length table.now }
    ensures { result ≡ tables.row_at table.now item.0 }
{
    table[item.0 as usize]
}
