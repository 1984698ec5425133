// How an item is to be carried out, before anything is written.
#![tactic(auto, unfolding(list_judging::specs::Ways::intent_of))]

ghost use Rattle.std.specs.Prelude.{◌≡◌, ◌+◌, ◌*◌, ◌≤◌, ◌<◌, ◌^◌, length};
ghost use Rattle.machine.specs.Places as places;
ghost use Rattle.list_tables.specs.Tables as tables;
ghost use Rattle.list_judging.specs.Ways as ways;

use cell::place::address_at;
use cell::{Address, Fault};
use commits::stores::Stores;
use exceptions::tell;
use list_judging::finding::{entry_at, to_entry};
use list_judging::judging::{given_way, next_way, throw_way};
use list_judging::{Cause, Intent, Way};
use list_machine::Outside;
use list_proposing::Stand;
use list_shapes::Shape;
use list_shapes::judging::writes;
use list_tables::{Image, ItemRow};
use machine::{Machine, Request, Then};

// What follows the writes of an item in front of which the machine stands.
fn intent_then(
    machine: Machine,
    memory: &[u8],
    table: &[ItemRow],
    base: Address,
    s: Stand,
    q: Request<Shape>,
) -> Intent
    requires in_bounds { 4 ≤ length memory.now }
    requires near { tables.Near table.now base.0 }
    requires item_bound { s.item.0 < tables.rows table.now }
    ensures { result ≡ ways.intent_then machine memory.now (tables.entry_below table.now base.0 (tables.rows table.now)) (tables.rows table.now) s.item.0 (tables.immediate_in table.now s.item.0) s.sp q q.then }
{
    match q.then {
        Then::GoOn => Intent::Act(q, next_way(table, s.item)),
        Then::Jump(a) => Intent::Act(q, to_entry(Outside::NoEntry, entry_at(table, base, a))),
        Then::Halt(x) => Intent::Act(q, Way::Halt(x)),
        Then::Throw => {
            let way = given_way(machine, memory, table, base, s.sp);
            Intent::End(Cause::Given, way)
        }
    }
}

// What an item asked for, unless its reading failed or one of its places is bad.
fn judge_asked(
    machine: Machine,
    memory: &[u8],
    asked: Result<Request<Shape>, Fault>,
) -> Result<Request<Shape>, Fault>
    requires { places.Fits machine (length memory.now) }
    ensures { result ≡ ways.judged machine memory.now asked }
{
    let q = asked?;
    q.stores.check(machine, memory)?;
    Ok(q)
}

// How an item is to be carried out, by what it asked for.
pub fn intent_of(
    machine: Machine,
    memory: &[u8],
    table: &[ItemRow],
    image: Image,
    s: Stand,
    asked: Result<Request<Shape>, Fault>,
) -> Intent
    requires in_bounds { (4 ≤ length memory.now) × (places.Fits machine (length memory.now)) }
    requires near { tables.Near table.now image.base.0 }
    requires cells_nonzero { (0 < image.cells.0) × (image.base.0 + 4 * image.cells.0 < 2 ^ 32) }
    requires item_bound { s.item.0 < tables.rows table.now }
    ensures { result ≡ ways.intent_of machine memory.now (tables.entry_below table.now image.base.0 (tables.rows table.now)) image.base.0 (image.base.0 + 4 * image.cells.0) (tables.rows table.now) s.item.0 (tables.immediate_in table.now s.item.0) s.sp asked }
{
    let base = image.base;
    match judge_asked(machine, memory, asked) {
        Err(f) => {
            let e = tell(machine, f);
            let way = throw_way(machine, memory, table, image, s.sp, e);
            Intent::End(Cause::Raised(e), way)
        }
        Ok(q) => {
            let end = address_at(base, image.cells);
            if writes(machine, memory, q.stores, base, end) {
                return Intent::Act(q, Way::Outside(Outside::WritesImage));
            }
            intent_then(machine, memory, table, base, s, q)
        }
    }
}
