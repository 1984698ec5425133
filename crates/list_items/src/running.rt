// A number of items.
#![tactic(auto, using(list_tables::proofs::TableLaws::in_rows, list_tables::proofs::TableLaws::few_items, crate::proofs::RunLaws::run_begins, crate::proofs::RunLaws::run_stops, crate::proofs::RunLaws::run_item, crate::proofs::RunLaws::few_cycles))]

ghost use Rattle.std.specs.Prelude.{◌≡◌, length};
ghost use Rattle.machine.specs.Places as places;
ghost use Rattle.cell.specs.Refusals.{Lent};
ghost use Rattle.pack_layout.specs.Listing.{listed};
ghost use Rattle.list_machine.specs.Runs as runs;
ghost use Rattle.list_tables.specs.Tables as tables;
ghost use Rattle.list_proposing.specs.Stands as stands;
ghost use Rattle.list_counting.specs.Outcomes as outcomes;

use crate::carrying::carry_out;
use list_counting::ItemRun;
use list_counting::tallying::{begin_run, count_item, cycles_at, is_over};
use list_proposing::Stand;
use list_tables::{Image, ItemRow};
use machine::Machine;

// Items from where the machine stands, until it stops or as many as are asked for are done.
pub fn run_items(
    machine: Machine,
    memory: &mut [u8],
    kinds: &[u8],
    operands: &[u32],
    table: &[ItemRow],
    image: Image,
    start: Stand,
    items: u32,
) -> ItemRun
    requires lent { (Lent (length memory.old)) × (places.Fits machine (length memory.old)) }
    requires settled { tables.Settled kinds.now operands.now table.now image }
    ensures { outcomes.run_as memory.new result ≡ runs.run_of machine image.base.0 (listed kinds.now operands.now) items (runs.resuming (listed kinds.now operands.now) (stands.position_of memory.old start)) }
{
    let mut ran = begin_run(kinds.len(), start);
    for _ in 0..items {
        if is_over(ran.ending) {
            return ran;
        }
        let s = ran.stand;
        let cycles = cycles_at(table, s);
        let c = carry_out(machine, memory, kinds, operands, table, image, s);
        ran = count_item(ran, cycles, c);
    }
    ran
}
