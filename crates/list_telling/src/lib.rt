// What is told of a run of the list machine, and whether there is room for it.
#![tactic(auto, unfolding(crate::specs::Telling::judge_lent))]

ghost use Rattle.std.specs.Prelude.{◌≡◌, ◌≤◌, length, get_or, Ok};
ghost use Rattle.processor_calls.specs.Machines as machines;
ghost use Rattle.list_telling.specs.Telling as telling;

use cell::Refusal;
use lent_arrays::lending::{read_areas, with_room, write_first, write_pointers};
use list_counting::ItemRun;
use list_counting::answers::{ending_number, ending_reason};

// The number at a place of a lent array, or 0 where it has no such place.
pub fn number_at(lent: &[u32], at: usize) -> u32
    ensures { result ≡ get_or lent.now at 0 }
{
    lent.get(at).copied().unwrap_or(0)
}

// SP, RP and the areas want six places, what is told of a run five.
pub fn judge_lent(pointers: usize, out: usize) -> Result<(), Refusal>
    ensures { result ≡ telling.judge_lent pointers out }
{
    with_room(with_room(Ok(()), pointers, 6), out, 5)
}

fn note_run(ran: ItemRun, pointers: &mut [u32], out: &mut [u32]) -> u32
    requires { (6 ≤ length pointers.old) × (5 ≤ length out.old) }
    ensures { machines.told pointers.new out.new result ≡ telling.answer_told pointers.old out.old (Ok ran) }
{
    let ending = ran.ending;
    let stand = ran.stand;
    let item = stand.item.0;
    let low = (ran.cycles % 0x100000000) as u32;
    let high = (ran.cycles / 0x100000000) as u32;
    let areas = read_areas(pointers, 2);
    write_pointers(pointers, stand.sp, stand.rp, areas);
    write_first(out, &[ending_reason(ending), item, ran.items, low, high]);
    ending_number(ending)
}

pub fn note_followed(answer: Result<ItemRun, Refusal>, pointers: &mut [u32], out: &mut [u32]) -> u32
    requires { telling.Room (length pointers.old) (length out.old) answer }
    ensures { machines.told pointers.new out.new result ≡ telling.answer_told pointers.old out.old answer }
{
    match answer {
        Ok(ran) => note_run(ran, pointers, out),
        Err(r) => u32::from(r),
    }
}
