// The machine that areas bound.
#![tactic(auto, using(areas::proofs::AreaLaws::taken))]

ghost use Rattle.std.specs.Prelude.{◌≡◌, ◌≤◌};
ghost use Rattle.cell.specs.Refusals.{passed};
ghost use Rattle.areas.specs.Areas as areas;
ghost use Rattle.bounds.specs.Bounds as bounds;

use areas::judging::is_none;
use areas::{Area, Areas};
use cell::{Address, CellCount};
use machine::places::{guard, unbounded};
use machine::{Machine, Span, Table};

// The cells of an area that was taken, and those held under it.
fn span_of(held: u32, area: Area) -> Span
    requires held_bound { held ≤ 1 }
    requires le_cells { (1 ≤ area.cells.0) × (areas.bytes_with held area ≤ area.top.0) }
    ensures { result ≡ bounds.span_of held area }
{
    let top = area.top;
    let cells = area.cells;
    Span {
        last: Address(top.0 - 4),
        cells: CellCount(cells.0 + held),
    }
}

// The machine of areas that were taken.
pub fn machine_of(order: u8, given: Areas, table: Table, length: usize) -> Machine
    requires in_bounds { (4 ≤ length) × (length ≤ 16777216) }
    requires given_value { areas.judge_areas length given ≡ passed }
    ensures { result ≡ bounds.machine_of order given table length }
{
    if is_none(given) {
        return unbounded(order, table, length);
    }
    let stack = given.stack;
    let returns = given.returns;
    let cells = stack.cells;
    Machine {
        order: order,
        stack: span_of(1, stack),
        writes: cells,
        returns: span_of(0, returns),
        table: guard(table),
    }
}

// Where the data stack begins.
pub fn first_sp(length: usize, given: Areas) -> u32
    requires { (1024 ≤ length) × (length ≤ 16777216) }
    ensures { result ≡ bounds.first_sp length given }
{
    if is_none(given) {
        return (length - 0x100) as u32;
    }
    let stack = given.stack;
    let top = stack.top;
    top.0
}

// Where the return stack begins.
pub fn first_rp(length: usize, given: Areas) -> u32
    requires { length ≤ 16777216 }
    ensures { result ≡ bounds.first_rp length given }
{
    if is_none(given) {
        return length as u32;
    }
    let returns = given.returns;
    let top = returns.top;
    top.0
}
