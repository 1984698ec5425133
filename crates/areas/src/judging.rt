// Which areas are taken.
#![tactic(auto, unfolding(crate::specs::Areas::judge_areas))]

ghost use Rattle.std.specs.Prelude.{◌≡◌, ◌≤◌};
ghost use Rattle.areas.specs.Areas as areas;

use crate::{Area, Areas};
use cell::{Address, Refusal};

// Whether all four numbers are 0.
pub fn is_none(given: Areas) -> bool
    ensures { result ≡ areas.none given }
{
    let stack = given.stack;
    let returns = given.returns;
    is_zero(stack) && is_zero(returns)
}

fn is_zero(area: Area) -> bool
    ensures { result ≡ areas.zero area }
{
    let top = area.top;
    let cells = area.cells;
    top.0 == 0 && cells.0 == 0
}

// Whether an area, with the cells held under it, is unaligned, empty, or not inside memory.
fn is_misplaced(length: usize, held: u32, area: Area) -> bool
    requires { held ≤ 1 }
    ensures { result ≡ areas.misplaced length held area }
{
    let top = area.top;
    let cells = area.cells;
    top.0 % 4 != 0
        || cells.0 == 0
        || (top.0 as u64) < 4 * (cells.0 as u64 + held as u64)
        || length < top.0 as usize
}

// Whether an area, with the cells held under it, begins below a top.
fn begins_below(held: u32, area: Area, top: Address) -> bool
    requires { held ≤ 1 }
    ensures { result ≡ areas.begins_below held area top.0 }
{
    let own = area.top;
    let cells = area.cells;
    (own.0 as u64) < top.0 as u64 + 4 * (cells.0 as u64 + held as u64)
}

// Whether the two areas share a byte, the held cell counted.
fn do_overlap(given: Areas) -> bool
    ensures { result ≡ areas.overlapping given }
{
    let stack = given.stack;
    let returns = given.returns;
    let top = stack.top;
    let return_top = returns.top;
    begins_below(0, returns, top) && begins_below(1, stack, return_top)
}

pub fn judge_areas(length: usize, given: Areas) -> Result<(), Refusal>
    ensures { result ≡ areas.judge_areas length given }
{
    if is_none(given) {
        return Ok(());
    }
    if is_misplaced(length, 1, given.stack)
        || is_misplaced(length, 0, given.returns)
        || do_overlap(given)
    {
        return Err(Refusal::StackAreas);
    }
    Ok(())
}
