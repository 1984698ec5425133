// Where an item leads, before anything is written.
ghost use Rattle.std.specs.Prelude.{◌≡◌, ◌+◌, ◌*◌, ◌≤◌, ◌<◌, ◌^◌, length};
ghost use Rattle.machine.specs.Places as places;
ghost use Rattle.list_tables.specs.Tables as tables;
ghost use Rattle.list_judging.specs.Ways as ways;

use crate::Way;
use crate::finding::{entry_at, to_entry};
use cell::Address;
use cell::memory::load;
use cell::number::subtract;
use cell::place::address_at;
use exceptions::code_of;
use exceptions::fixed::{BAD_HANDLER, BAD_STACK, HANDLER_CELL};
use list_machine::Outside;
use list_shapes::judging::meets;
use list_tables::tables::row_of;
use list_tables::{Image, ItemRow};
use machine::places::{check_named, check_push};
use machine::{Exception, Machine};
use pack_layout::ItemNumber;

// 'THROW is h: an entry, -259, or outside.
fn handler_way(machine: Machine, memory: &[u8], table: &[ItemRow], base: Address, h: Address) -> Way
    requires { tables.Near table.now base.0 }
    ensures { result ≡ ways.handler_way machine memory.now (tables.entry_below table.now base.0 (tables.rows table.now)) h.0 }
{
    if check_named(machine, memory.len(), h).is_err() {
        return Way::Halt(BAD_HANDLER);
    }
    to_entry(Outside::NoHandler, entry_at(table, base, h))
}

// A throw: its push may be -258, or a write of the image.
pub fn throw_way(
    machine: Machine,
    memory: &[u8],
    table: &[ItemRow],
    image: Image,
    sp: u32,
    e: Exception,
) -> Way
    requires in_bounds { (4 ≤ length memory.now) × (places.Fits machine (length memory.now)) }
    requires near { (tables.Near table.now image.base.0) × (image.base.0 + 4 * image.cells.0 < 2 ^ 32) }
    ensures { result ≡ ways.throw_way machine memory.now (tables.entry_below table.now image.base.0 (tables.rows table.now)) image.base.0 (image.base.0 + 4 * image.cells.0) sp e }
{
    let base = image.base;
    let a = Address(subtract(sp, 4));
    if check_push(machine, memory.len(), a).is_err() {
        return Way::Halt(BAD_STACK);
    }
    if meets(a, 4, base, address_at(base, image.cells)) {
        return Way::Outside(Outside::WritesImage);
    }
    if a.0 == HANDLER_CELL.0 {
        return handler_way(machine, memory, table, base, Address(code_of(e)));
    }
    let handler = load(machine.order, memory, HANDLER_CELL);
    handler_way(machine, memory, table, base, Address(handler))
}

// THROW, which pushes nothing.
pub fn given_way(machine: Machine, memory: &[u8], table: &[ItemRow], base: Address, sp: u32) -> Way
    requires in_bounds { 4 ≤ length memory.now }
    requires near { tables.Near table.now base.0 }
    ensures { result ≡ ways.given_way machine memory.now (tables.entry_below table.now base.0 (tables.rows table.now)) sp }
{
    if sp % 4 != 0 {
        return Way::Halt(BAD_STACK);
    }
    let handler = load(machine.order, memory, HANDLER_CELL);
    handler_way(machine, memory, table, base, Address(handler))
}

// The item after this one.
pub fn next_way(table: &[ItemRow], item: ItemNumber) -> Way
    requires { (item.0 < tables.rows table.now) × (tables.rows table.now ≤ 4096) }
    ensures { result ≡ ways.next_way (tables.rows table.now) item.0 (tables.immediate_in table.now item.0) }
{
    let next = item.0 + 1;
    if (next as usize) < table.len() {
        return Way::To(ItemNumber(next), !row_of(table, item).immediate);
    }
    Way::Outside(Outside::PastEnd)
}
