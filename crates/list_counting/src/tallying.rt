// What an item counts in a run, and a run before its first item.
ghost use Rattle.std.specs.Prelude.{◌≡◌, ◌&&◌, ◌<◌, ◌≤◌};
ghost use Rattle.cell.specs.Choice.{if};
ghost use Rattle.list_tables.specs.Tables as tables;
ghost use Rattle.list_counting.specs.Outcomes as outcomes;

use crate::{Carried, Ending, ItemRun};
use list_machine::Outside;
use list_proposing::Stand;
use list_tables::ItemRow;
use list_tables::tables::row_of;

// The cycles that an item counts.
pub fn cycles_at(table: &[ItemRow], s: Stand) -> u64
    requires { s.item.0 < tables.rows table.now }
    ensures { result ≡ if (s.ran && tables.opens_in table.now s.item.0) 2 1 }
{
    if s.ran && row_of(table, s.item).opens {
        return 2;
    }
    1
}

// The run with one item more, by what the item came to.
pub fn count_item(ran: ItemRun, cycles: u64, c: Carried) -> ItemRun
    requires { (ran.items < 0xFFFFFFFF) × (ran.cycles ≤ 0x200000000) × (cycles ≤ 2) }
    ensures { result ≡ outcomes.counted ran cycles c }
{
    match c {
        Carried::On(stand) => ItemRun {
            stand,
            items: ran.items + 1,
            cycles: ran.cycles + cycles,
            ending: Ending::GoesOn,
        },
        Carried::Stopped(stand, x) => ItemRun {
            stand,
            items: ran.items + 1,
            cycles: ran.cycles + cycles,
            ending: Ending::Stopped(x),
        },
        Carried::Outside(why) => ItemRun {
            ending: Ending::Outside(why),
            ..ran
        },
    }
}

pub fn is_over(ending: Ending) -> bool
    ensures { result ≡ outcomes.is_over ending }
{
    !matches!(ending, Ending::GoesOn)
}

// In front of an item of a listing of n, with nothing done. An item that the listing does not have stands past the end.
pub fn begin_run(n: usize, start: Stand) -> ItemRun
    requires { n ≤ 4096 }
    ensures { result ≡ outcomes.begun n start }
{
    let ending = if start.item.0 < n as u32 {
        Ending::GoesOn
    } else {
        Ending::Outside(Outside::PastEnd)
    };
    ItemRun {
        stand: start,
        items: 0,
        cycles: 0,
        ending,
    }
}
