// The calls from C for object modules. Each judges first, and writes nothing that was lent where it refuses.
#![tactic(auto, using(lent_arrays::proofs::LendingLaws::roomy), unfolding(calls::specs::Modules::load_first_call, calls::specs::Modules::save_call))]

ghost use Rattle.std.specs.Prelude.{◌≡◌};
ghost use Rattle.calls.specs.Modules as modules;

use calls::notes::{note_cells, note_count};
use cell::{Address, CellCount};
use lent_arrays::lending::with_room;
use module_judging::judgement::{judge_load, judge_save};
use module_loading::loading::load_first;
use module_saving::saving::save_object;

pub fn call_load_first(
    order: u8,
    memory: &mut [u8],
    file: &[u8],
    address: u32,
    cells: u32,
    out: &mut [u32],
) -> u32
    ensures { modules.moved memory.new out.new result ≡ modules.load_first_call order memory.old file.now address cells out.old }
{
    let address = Address(address);
    let cells = CellCount(cells);
    let judged = judge_load(memory.len(), order, file, address);
    match with_room(judged, out.len(), 1) {
        Err(r) => u32::from(r),
        Ok(()) => note_cells(load_first(order, memory, file, address, cells), out),
    }
}

pub fn call_save(
    order: u8,
    memory: &[u8],
    address: u32,
    cells: u32,
    output: &mut [u8],
    out: &mut [u32],
) -> u32
    ensures { modules.moved output.new out.new result ≡ modules.save_call order memory.now address cells output.old out.old }
{
    let address = Address(address);
    let cells = CellCount(cells);
    let judged = judge_save(memory.len(), order, address, cells, output.len());
    match with_room(judged, out.len(), 1) {
        Err(r) => u32::from(r),
        Ok(()) => note_count(save_object(order, memory, address, cells, output), out),
    }
}
