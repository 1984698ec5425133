// The table of a layout, filled once the rounds have settled it.
ghost use Rattle.std.specs.Prelude.{◌≡◌, length};
ghost use Rattle.cell.specs.Memory.{cell_count};
ghost use Rattle.pack_layout.specs.Listing.{listed, Checked};
ghost use Rattle.pack_layout.specs.Layout as placing;
ghost use Rattle.pack_prepare.specs.Prepared.{Prepared};
ghost use Rattle.list_machine.specs.ListMachine as lists;
ghost use Rattle.list_tables.specs.Tables as tables;

use crate::ItemRow;
use cell::CellCount;
use pack_judging::kinds::class_of;
use pack_layout::{ItemForm, PlacedItem};
use pack_rounds::place::form_of;

fn is_short(form: ItemForm) -> bool
    ensures { result ≡ lists.is_immediate form }
{
    matches!(form, ItemForm::Immediate)
}

// The operand cells of a form.
fn extra_of(form: ItemForm) -> CellCount
    ensures { result ≡ cell_count (placing.extra form) }
{
    match form {
        ItemForm::Alone | ItemForm::Immediate => CellCount(0),
        ItemForm::InCell => CellCount(1),
    }
}

// A row for each item, from the array that holds the entries, the marks and the layout.
#[tactic(auto, using(pack_prepare::proofs::Checking::items_most, crate::proofs::TableLaws::left_low))]
pub fn tabulate(kinds: &[u8], operands: &[u32], placed: &[PlacedItem], table: &mut [ItemRow])
    requires checked { Checked kinds.now operands.now }
    requires placed_len { length placed.now ≡ length kinds.now }
    requires table_len { length table.old ≡ length kinds.now }
    requires prepared { Prepared kinds.now operands.now placed.now }
    ensures { tables.Rows (listed kinds.now operands.now) table.new (length kinds.now) }
{
    for i in 0..kinds.len() {
        let item = placed[i];
        let left = item.left as u32;
        let form = form_of(class_of(kinds[i]), item.marked, operands[i], left);
        let extra = extra_of(form);
        let behind = item.next.0 + extra.0;
        table[i] = ItemRow {
            at: item.at,
            next: item.next,
            behind: CellCount(behind),
            entry: item.entry,
            opens: item.left == 3,
            immediate: is_short(form),
        };
    }
}
