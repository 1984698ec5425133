// Batches of forms.
ghost use Rattle.std.specs.Prelude.{◌≡◌};
ghost use Rattle.machine.specs.Places.{table_of};
ghost use Rattle.areas.specs.Areas.{areas_of, filed};
ghost use Rattle.calls.specs.Modules.{moved};
ghost use Rattle.batches.specs.Batches.{common_of, forms_given};
ghost use Rattle.batch_calls.specs.Batches as batches;

use areas::RegisterFile;
use batch_calls::calling::call_batch;
use cell::Address;
use lent_arrays::lending::{make_areas, make_table};
use machine::Registers;

#[unsafe(no_mangle)]
pub extern "C" fn beetle_batch(
    order: u8,
    start: &[u8],
    memory: &mut [u8],
    forms: &[u8],
    count: u16,
    form_length: u32,
    address: u32,
    ep: u32,
    a: u32,
    sp: u32,
    rp: u32,
    data_top: u32,
    data_cells: u32,
    return_top: u32,
    return_cells: u32,
    table: u32,
    table_end: u32,
    budget: u32,
    out: &mut [u32],
) -> u32
    ensures { moved memory.new out.new result ≡ batches.batch_call (common_of order start.now address (filed (areas_of data_top data_cells return_top return_cells) (record { ep = ep; a = a; sp = sp; rp = rp })) (table_of table table_end) budget) memory.old (forms_given forms.now count form_length) out.old }
{
    let r = RegisterFile {
        registers: Registers {
            ep: ep,
            a: a,
            sp: sp,
            rp: rp,
        },
        areas: make_areas(data_top, data_cells, return_top, return_cells),
    };
    call_batch(
        order,
        start,
        memory,
        forms,
        count,
        form_length,
        Address(address),
        r,
        make_table(table, table_end),
        budget,
        out,
    )
}
