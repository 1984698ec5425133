// One item carried out.
#![tactic(auto, unfolding(throws::specs::Throws::throwing_of))]

ghost use Rattle.std.specs.Prelude.{◌≡◌, ◌≤◌, ◌<◌, length};
ghost use Rattle.cell.specs.Refusals.{Lent};
ghost use Rattle.machine.specs.Places as places;
ghost use Rattle.machine.specs.Commits as commits;
ghost use Rattle.throws.specs.Throws as throws;
ghost use Rattle.pack_layout.specs.Listing.{listed};
ghost use Rattle.list_machine.specs.ListMachine as lists;
ghost use Rattle.list_shapes.specs.Shapes as shapes;
ghost use Rattle.list_tables.specs.Tables as tables;
ghost use Rattle.list_proposing.specs.Stands as stands;
ghost use Rattle.list_judging.specs.Ways as ways;
ghost use Rattle.list_counting.specs.Outcomes as outcomes;

use commits::commit::commit;
use exceptions::code_of;
use exceptions::fixed::BAD_STACK;
use list_counting::Carried;
use list_intents::intent_of;
use list_judging::{Cause, Intent, Way};
use list_proposing::Stand;
use list_proposing::proposing::{registers_at, shape_of};
use list_shapes::Shape;
use list_tables::{Image, ItemRow};
use machine::{CycleResult, Ended, Machine, Registers, Request};
use pack_layout::ItemNumber;
use throws::ending::{handle, throw};

// In front of an item, with the stack pointers of r.
fn arrive(item: ItemNumber, ran: bool, r: Registers) -> Stand
    ensures { result ≡ stands.arrived item ran r }
{
    Stand {
        item,
        ran,
        sp: r.sp,
        rp: r.rp,
    }
}

// The writes of an item, and the registers that they leave.
fn act(machine: Machine, memory: &mut [u8], r: Registers, q: Request<Shape>) -> Registers
    requires { places.Fits machine (length memory.old) }
    ensures memory_after { memory.new ≡ (commits.commit_of machine memory.old r (shapes.shape_effect machine memory.old q)).memory }
    ensures value { result ≡ (commits.commit_of machine memory.old r (shapes.shape_effect machine memory.old q)).step.registers }
{
    match commit(machine, memory, r, Ok(q)) {
        Ok(t) => t.registers,
        // never reached: the places of an item were judged before
        Err(_) => r,
    }
}

// The writes of an item, unless its way leads outside.
fn act_along(
    machine: Machine,
    memory: &mut [u8],
    s: Stand,
    r: Registers,
    q: Request<Shape>,
    way: Way,
) -> Carried
    requires { places.Fits machine (length memory.old) }
    ensures { outcomes.left memory.new result ≡ outcomes.leaves memory.old (ways.along way (ways.stepped_to (stands.position_of memory.old s) (commits.commit_of machine memory.old r (shapes.shape_effect machine memory.old q)))) }
{
    match way {
        Way::To(i, ran) => {
            let after = act(machine, memory, r, q);
            Carried::On(arrive(i, ran, after))
        }
        Way::Halt(x) => {
            let after = act(machine, memory, r, q);
            Carried::Stopped(arrive(s.item, s.ran, after), x)
        }
        Way::Outside(why) => Carried::Outside(why),
    }
}

// A throw, made. It does not go by the machine's `finish`, whose only call is to stay in the processor's loop.
fn end(machine: Machine, memory: &mut [u8], r: Registers, cause: Cause) -> CycleResult
    requires fits { places.Fits machine (length memory.old) }
    requires in_bounds { 16 ≤ length memory.old }
    ensures { throws.with_result memory.new result ≡ ways.end_of machine memory.old r cause }
{
    match cause {
        Cause::Raised(e) => throw(machine, memory, r, e, code_of(e)),
        Cause::Given => {
            if r.sp % 4 == 0 {
                return handle(machine, memory, r, Ended::Went);
            }
            CycleResult {
                registers: r,
                ended: Ended::Stopped(BAD_STACK),
            }
        }
    }
}

// The throw of an item, unless its way leads outside.
fn end_along(
    machine: Machine,
    memory: &mut [u8],
    s: Stand,
    r: Registers,
    cause: Cause,
    way: Way,
) -> Carried
    requires fits { places.Fits machine (length memory.old) }
    requires in_bounds { 16 ≤ length memory.old }
    ensures { outcomes.left memory.new result ≡ outcomes.leaves memory.old (ways.along way (lists.thrown_to (stands.position_of memory.old s) (ways.end_of machine memory.old r cause))) }
{
    match way {
        Way::To(i, ran) => {
            let t = end(machine, memory, r, cause);
            Carried::On(arrive(i, ran, t.registers))
        }
        Way::Halt(x) => {
            let t = end(machine, memory, r, cause);
            Carried::Stopped(arrive(s.item, s.ran, t.registers), x)
        }
        Way::Outside(why) => Carried::Outside(why),
    }
}

fn perform(machine: Machine, memory: &mut [u8], s: Stand, r: Registers, intent: Intent) -> Carried
    requires fits { places.Fits machine (length memory.old) }
    requires in_bounds { 16 ≤ length memory.old }
    ensures { outcomes.left memory.new result ≡ outcomes.leaves memory.old (ways.performed machine (stands.position_of memory.old s) r intent) }
{
    match intent {
        Intent::Act(q, way) => act_along(machine, memory, s, r, q, way),
        Intent::End(cause, way) => end_along(machine, memory, s, r, cause, way),
    }
}

// The item in front of which the machine stands.
#[tactic(auto, using(list_tables::proofs::TableLaws::in_rows, list_tables::proofs::TableLaws::next_near, list_tables::proofs::TableLaws::is_near, list_tables::proofs::TableLaws::image_near))]
pub fn carry_out(
    machine: Machine,
    memory: &mut [u8],
    kinds: &[u8],
    operands: &[u32],
    table: &[ItemRow],
    image: Image,
    s: Stand,
) -> Carried
    requires lent { (Lent (length memory.old)) × (places.Fits machine (length memory.old)) }
    requires settled { tables.Settled kinds.now operands.now table.now image }
    requires item_in_bounds { s.item.0 < length kinds.now }
    ensures { outcomes.left memory.new result ≡ outcomes.leaves memory.old (lists.carry_out machine image.base.0 (listed kinds.now operands.now) (stands.position_of memory.old s)) }
{
    let r = registers_at(table, image.base, s);
    let asked = shape_of(machine, memory, kinds, operands, table, image, s);
    let intent = intent_of(machine, memory, table, image, s, asked);
    perform(machine, memory, s, r, intent)
}
