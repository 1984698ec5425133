// The call from C for a set of modules.
#![tactic(auto, using(calls::proofs::SetLaws::set_no_place, calls::proofs::SetLaws::set_told))]

ghost use Rattle.std.specs.Prelude.{◌≡◌};
ghost use Rattle.calls.specs.Modules.{moved};
ghost use Rattle.calls.specs.Sets as sets;

use calls::notes::note_cells;
use lent_arrays::lending::no_place;
use set_loading::loading::load_set;
use set_refusals::judge_set;

pub fn call_load_set(
    order: u8,
    memory: &mut [u8],
    buffer: &[u8],
    modules: &[u32],
    out: &mut [u32],
) -> u32
    ensures { moved memory.new out.new result ≡ sets.load_set_call order memory.old buffer.now modules.now out.old }
{
    if out.is_empty() {
        return no_place(judge_set(memory.len(), order, buffer, modules));
    }
    note_cells(load_set(order, memory, buffer, modules), out)
}
