// A number of items of a listing, from any item on: judged, laid out, run.
#![tactic(auto, using(pack_prepare::proofs::Checking::items_most, pack_prepare::proofs::Checking::cells_most, crate::proofs::Following::begin_lent, crate::proofs::Following::begin_areas, crate::proofs::Following::begin_fits, crate::proofs::Following::begin_checked, crate::proofs::Following::run_back), unfolding(crate::specs::Follow::resume_in, list_refusals::specs::Judging::judge_follow))]

ghost use Rattle.std.specs.Prelude.{◌≡◌, length};
ghost use Rattle.machine.specs.Places as places;
ghost use Rattle.cell.specs.Refusals.{Lent};
ghost use Rattle.pack_layout.specs.Listing.{listed, Checked};
ghost use Rattle.pack_layout.specs.Packing.{image_cells};
ghost use Rattle.list_refusals.specs.Judging as judging;
ghost use Rattle.list_following.specs.Follow as follows;

use areas::Areas;
use bounds::bounding::machine_of;
use cell::{Address, Refusal};
use list_counting::ItemRun;
use list_items::running::run_items;
use list_proposing::Stand;
use list_refusals::judgement::{judge_begin, judge_image};
use list_tables::settle::settle_table;
use list_tables::{Image, ItemRow, NO_ROW};
use machine::{Machine, Table};
use pack_layout::MOST_ITEMS;

// A listing that the input list passed, with a table lent: it is laid out once, its image judged, and the run made.
fn follow_checked(
    machine: Machine,
    memory: &mut [u8],
    kinds: &[u8],
    operands: &[u32],
    table: &mut [ItemRow],
    base: Address,
    start: Stand,
    items: u32,
    room: Result<(), Refusal>,
) -> Result<ItemRun, Refusal>
    requires lent { (Lent (length memory.old)) × (places.Fits machine (length memory.old)) }
    requires checked { Checked kinds.now operands.now }
    requires table_len { length table.old ≡ length kinds.now }
    ensures { follows.followed_to memory.new start result ≡ follows.follow_if (judging.judge_image base.0 (image_cells (listed kinds.now operands.now)) room) machine base.0 (listed kinds.now operands.now) memory.old start items }
{
    let cells = settle_table(kinds, operands, table);
    judge_image(base, cells, room)?;
    let image = Image { base, cells };
    Ok(run_items(machine, memory, kinds, operands, table, image, start, items))
}

// A run from where the machine is told to stand; room is the caller's judgement of what else was lent.
pub fn follow_within(
    order: u8,
    areas: Areas,
    table: Table,
    kinds: &[u8],
    operands: &[u32],
    base: Address,
    memory: &mut [u8],
    start: Stand,
    items: u32,
    room: Result<(), Refusal>,
) -> Result<ItemRun, Refusal>
    ensures { follows.followed_to memory.new start result ≡ follows.resume_in room order areas table kinds.now operands.now base.0 memory.old start items }
{
    judge_begin(memory.len(), order, areas, table, kinds, operands)?;
    let n = kinds.len();
    let mut layout = [NO_ROW; MOST_ITEMS];
    follow_checked(
        machine_of(order, areas, table, memory.len()),
        memory,
        kinds,
        operands,
        &mut layout[0..n],
        base,
        start,
        items,
        room,
    )
}
