// What an item asks for.
#![tactic(auto, using(list_tables::proofs::TableLaws::in_rows, list_tables::proofs::TableLaws::next_near, list_tables::proofs::TableLaws::behind_near, list_tables::proofs::TableLaws::target_in, crate::proofs::KindLaws::plain_some))]

ghost use Rattle.std.specs.Prelude.{◌≡◌, ◌+◌, ◌*◌, ◌≤◌, ◌<◌, ◌^◌, length};
ghost use Rattle.machine.specs.Places as places;
ghost use Rattle.machine.specs.Effects as effects;
ghost use Rattle.cell.specs.Refusals.{Lent};
ghost use Rattle.pack_layout.specs.Listing.{listed};
ghost use Rattle.list_machine.specs.ListMachine as lists;
ghost use Rattle.list_shapes.specs.Shapes as shapes;
ghost use Rattle.list_tables.specs.Tables as tables;
ghost use Rattle.list_proposing.specs.Stands as stands;

use crate::Stand;
use cell::place::address_at;
use cell::{Address, Fault};
use list_effects::from_01::propose_from_01;
use list_effects::taking::propose_taking;
use list_shapes::Shape;
use list_tables::tables::row_of;
use list_tables::{Image, ItemRow};
use machine::{Machine, Registers, Request};
use pack_judging::kinds::class_of;
use pack_layout::{Class, ItemNumber};
use pack_rounds::measure::distance_of;

// The registers of an instruction at an address.
fn registers_for(ep: Address, a: u32, s: Stand) -> Registers
    ensures { result ≡ stands.registers_for ep.0 a s }
{
    Registers {
        ep: ep.0,
        a,
        sp: s.sp,
        rp: s.rp,
    }
}

// The registers at an item: its EP value, and no A.
pub fn registers_at(table: &[ItemRow], base: Address, s: Stand) -> Registers
    requires item_bound { s.item.0 < tables.rows table.now }
    requires item_bound_2 { base.0 + 4 * tables.next_in table.now s.item.0 < 2 ^ 32 }
    ensures { result ≡ stands.registers_for (base.0 + 4 * tables.next_in table.now s.item.0) 0 s }
{
    registers_for(address_at(base, row_of(table, s.item).next), 0, s)
}

// What an item asks for. An operand goes to the instruction in A, from which the address of a branch's target is measured. A listing that was accepted
// has no byte that is no kind, so the last arm is never reached.
pub fn shape_of(
    machine: Machine,
    memory: &[u8],
    kinds: &[u8],
    operands: &[u32],
    table: &[ItemRow],
    image: Image,
    s: Stand,
) -> Result<Request<Shape>, Fault>
    requires lent { (Lent (length memory.now)) × (places.Fits machine (length memory.now)) }
    requires settled { tables.Settled kinds.now operands.now table.now image }
    requires item_in_bounds { s.item.0 < length kinds.now }
    ensures { effects.asked (shapes.shape_stores machine.order memory.now) result ≡ lists.effect_at machine image.base.0 (listed kinds.now operands.now) (stands.position_of memory.now s) }
{
    let item = s.item;
    let i = item.0 as usize;
    let kind = kinds[i];
    let opcode = kind as u32;
    let x = operands[i];
    let base = image.base;
    let behind = row_of(table, item).behind;
    match class_of(kind) {
        Class::Plain => propose_from_01(machine, memory, registers_at(table, base, s), opcode),
        Class::Literal => {
            let r = registers_for(address_at(base, behind), x, s);
            propose_taking(machine, memory, r, opcode)
        }
        Class::Branch => {
            let to = distance_of(behind, row_of(table, ItemNumber(x)).at);
            let r = registers_for(address_at(base, behind), to, s);
            propose_taking(machine, memory, r, opcode)
        }
        Class::NoKind => Err(Fault::Illegal),
    }
}
