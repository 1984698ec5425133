// The calls for the list machine. They judge first, and write nothing that was lent where they refuse.
ghost use Rattle.std.specs.Prelude.{◌≡◌, not, eqb};
ghost use Rattle.machine.specs.Places.{table_of};
ghost use Rattle.processor_calls.specs.Machines as machines;
ghost use Rattle.list_calls.specs.Lists as lists;

use cell::Address;
use lent_arrays::lending::make_table;
use list_calls::lists::resume_list;
use pack_layout::ItemNumber;

#[unsafe(no_mangle)]
pub extern "C" fn beetle_list_run(
    order: u8,
    kinds: &[u8],
    operands: &[u32],
    base: u32,
    memory: &mut [u8],
    table: u32,
    table_end: u32,
    pointers: &mut [u32],
    items: u32,
    out: &mut [u32],
) -> u32
    ensures { machines.called memory.new pointers.new out.new result ≡ lists.list_call order kinds.now operands.now base memory.old (table_of table table_end) pointers.old items out.old }
{
    resume_list(
        order,
        kinds,
        operands,
        Address(base),
        memory,
        make_table(table, table_end),
        ItemNumber(0),
        false,
        pointers,
        items,
        out,
    )
}

// ran is 0 where the item was not run on into from an item not in its immediate form.
#[unsafe(no_mangle)]
pub extern "C" fn beetle_list_resume(
    order: u8,
    kinds: &[u8],
    operands: &[u32],
    base: u32,
    memory: &mut [u8],
    table: u32,
    table_end: u32,
    item: u32,
    ran: u8,
    pointers: &mut [u32],
    items: u32,
    out: &mut [u32],
) -> u32
    ensures { machines.called memory.new pointers.new out.new result ≡ lists.resume_call order kinds.now operands.now base memory.old (table_of table table_end) item (not (eqb ran 0)) pointers.old items out.old }
{
    resume_list(
        order,
        kinds,
        operands,
        Address(base),
        memory,
        make_table(table, table_end),
        ItemNumber(item),
        ran != 0,
        pointers,
        items,
        out,
    )
}
