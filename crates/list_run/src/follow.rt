// list_run and list_resume: a number of items of a listing.
#![tactic(auto, using(crate::proofs::Packed::as_packed))]

ghost use Rattle.std.specs.Prelude.{◌≡◌, false, length};
ghost use Rattle.bounds.specs.Bounds.{machine_of};
ghost use Rattle.pack_layout.specs.Listing.{listed};
ghost use Rattle.list_following.specs.Follow as follows;
ghost use Rattle.list_run.specs.Packed as packed;

use areas::Areas;
use cell::{Address, Refusal};
use list_counting::ItemRun;
use list_following::follow::follow_within;
use list_proposing::Stand;
use machine::Table;
use pack_layout::ItemNumber;

// A run taken up at an item, which was run on into from an item not in its immediate form or not.
pub fn list_resume(
    order: u8,
    areas: Areas,
    table: Table,
    kinds: &[u8],
    operands: &[u32],
    base: Address,
    memory: &mut [u8],
    item: ItemNumber,
    ran: bool,
    sp: u32,
    rp: u32,
    items: u32,
) -> Result<ItemRun, Refusal>
    ensures { follows.followed_to memory.new (follows.stand_at item.0 ran sp rp) result ≡ follows.resume_of order areas table kinds.now operands.now base.0 memory.old (follows.stand_at item.0 ran sp rp) items }
{
    let start = Stand { item, ran, sp, rp };
    follow_within(
        order,
        areas,
        table,
        kinds,
        operands,
        base,
        memory,
        start,
        items,
        Ok(()),
    )
}

// A run from item 0 on.
pub fn list_run(
    order: u8,
    areas: Areas,
    table: Table,
    kinds: &[u8],
    operands: &[u32],
    base: Address,
    memory: &mut [u8],
    sp: u32,
    rp: u32,
    items: u32,
) -> Result<ItemRun, Refusal>
    ensures result_after { follows.followed_to memory.new (follows.stand_at 0 false sp rp) result ≡ follows.follow_of order areas table kinds.now operands.now base.0 memory.old sp rp items }
    ensures as_packed { packed.AsPacked (machine_of order areas table (length memory.old)) base.0 (listed kinds.now operands.now) memory.old sp rp memory.new result }
{
    list_resume(
        order,
        areas,
        table,
        kinds,
        operands,
        base,
        memory,
        ItemNumber(0),
        false,
        sp,
        rp,
        items,
    )
}
