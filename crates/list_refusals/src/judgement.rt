// What refuses a run of the list machine, in document 01's order.
#![tactic(auto, unfolding(crate::specs::Judging::judge_begin, crate::specs::Judging::judge_image))]

ghost use Rattle.std.specs.Prelude.{◌≡◌, ◌≤◌};
ghost use Rattle.list_refusals.specs.Judging as judging;

use areas::Areas;
use bounds::judging::judge_bounded;
use cell::{Address, CellCount, Refusal};
use machine::Table;
use pack_judging::check::{judge_arrays, judge_place};

// What is judged before the layout.
pub fn judge_begin(
    length: usize,
    order: u8,
    areas: Areas,
    table: Table,
    kinds: &[u8],
    operands: &[u32],
) -> Result<(), Refusal>
    ensures { result ≡ judging.judge_begin length order areas table kinds.now operands.now }
{
    judge_bounded(length, order, areas, table)?;
    judge_arrays(kinds, operands)
}

// What is judged once the size of the image is known; room is the caller's judgement of what else was lent.
pub fn judge_image(
    base: Address,
    cells: CellCount,
    room: Result<(), Refusal>,
) -> Result<(), Refusal>
    requires { cells.0 ≤ 8192 }
    ensures { result ≡ judging.judge_image base.0 cells.0 room }
{
    judge_place(base, cells)?;
    room
}
