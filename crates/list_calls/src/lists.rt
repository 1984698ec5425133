// The calls for the list machine.
ghost use Rattle.std.specs.Prelude.{◌≡◌};
ghost use Rattle.processor_calls.specs.Machines as machines;
ghost use Rattle.list_calls.specs.Lists as lists;

use cell::Address;
use lent_arrays::lending::areas_in;
use list_following::follow::follow_within;
use list_proposing::Stand;
use list_telling::{judge_lent, note_followed, number_at};
use machine::Table;
use pack_layout::ItemNumber;

// A run taken up at an item, with SP, RP and the areas lent in `pointers` and what is told of it in `out`.
pub fn resume_list(
    order: u8,
    kinds: &[u8],
    operands: &[u32],
    base: Address,
    memory: &mut [u8],
    table: Table,
    item: ItemNumber,
    ran: bool,
    pointers: &mut [u32],
    items: u32,
    out: &mut [u32],
) -> u32
    ensures { machines.called memory.new pointers.new out.new result ≡ lists.resume_call order kinds.now operands.now base.0 memory.old table item.0 ran pointers.old items out.old }
{
    let start = Stand {
        item,
        ran,
        sp: number_at(pointers, 0),
        rp: number_at(pointers, 1),
    };
    let areas = areas_in(pointers, 2);
    let room = judge_lent(pointers.len(), out.len());
    let answer = follow_within(
        order, areas, table, kinds, operands, base, memory, start, items, room,
    );
    note_followed(answer, pointers, out)
}
