// The table of a listing that the input list passed.
#![tactic(auto, using(pack_prepare::proofs::Checking::items_most))]

ghost use Rattle.std.specs.Prelude.{◌≡◌, length};
ghost use Rattle.cell.specs.Memory.{cell_count};
ghost use Rattle.pack_layout.specs.Listing.{listed, Checked};
ghost use Rattle.pack_layout.specs.Packing.{image_cells};
ghost use Rattle.list_tables.specs.Tables as tables;

use crate::ItemRow;
use crate::tabling::tabulate;
use cell::CellCount;
use pack_layout::{MOST_ITEMS, PlacedItem, UNPLACED};
use pack_prepare::prepare::prepare;

// The rounds in the lent array, then the table. The answer is the number of cells of the image.
fn fill_table(
    kinds: &[u8],
    operands: &[u32],
    placed: &mut [PlacedItem],
    table: &mut [ItemRow],
) -> CellCount
    requires checked { Checked kinds.now operands.now }
    requires placed_len { length placed.old ≡ length kinds.now }
    requires table_len { length table.old ≡ length kinds.now }
    ensures value { result ≡ cell_count (image_cells (listed kinds.now operands.now)) }
    ensures rows { tables.Rows (listed kinds.now operands.now) table.new (length kinds.now) }
{
    let cells = prepare(kinds, operands, placed);
    tabulate(kinds, operands, placed, table);
    cells
}

// The table, filled; the answer is the number of cells of the image.
pub fn settle_table(kinds: &[u8], operands: &[u32], table: &mut [ItemRow]) -> CellCount
    requires checked { Checked kinds.now operands.now }
    requires table_len { length table.old ≡ length kinds.now }
    ensures value { result ≡ cell_count (image_cells (listed kinds.now operands.now)) }
    ensures rows { tables.Rows (listed kinds.now operands.now) table.new (length kinds.now) }
{
    let n = kinds.len();
    let mut placed = [UNPLACED; MOST_ITEMS];
    fill_table(kinds, operands, &mut placed[0..n], table)
}
