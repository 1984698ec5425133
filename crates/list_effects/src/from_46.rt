// Opcodes 46h to 57h that take no operand: control, exceptions.
#![tactic(auto, unfolding(instruction::specs::Dispatch::decode_of, instruction::specs::Plain::plain_of))]

ghost use Rattle.std.specs.Prelude.{◌≡◌, ◌≤◌, length};
ghost use Rattle.machine.specs.Places as places;
ghost use Rattle.machine.specs.Effects as effects;
ghost use Rattle.instruction.specs.Plain as plain;
ghost use Rattle.instruction.specs.Dispatch as dispatch;
ghost use Rattle.list_shapes.specs.Shapes as shapes;

use cell::Fault;
use flow::control::{execute, exit, fetch_execute};
use flow::halting::{halt, lib};
use list_shapes::Shape;
use list_shapes::shaping::shaped;
use loops::{outer_index, start_loop, unloop};
use machine::{Machine, Registers, Request, Then};

pub fn propose_from_46(
    machine: Machine,
    memory: &[u8],
    r: Registers,
    opcode: u32,
) -> Result<Request<Shape>, Fault>
    requires fits { places.Fits machine (length memory.now) }
    requires le_opcode { 66 ≤ opcode }
    ensures { effects.asked (shapes.shape_stores machine.order memory.now) result ≡ plain.plain_at machine (dispatch.decode_of opcode) memory.now r }
{
    match opcode {
        // EXECUTE
        0x46 => Ok(shaped(execute(machine, memory, r)?)),
        // @EXECUTE
        0x47 => Ok(shaped(fetch_execute(machine, memory, r)?)),
        // EXIT
        0x4A => Ok(shaped(exit(machine, memory, r)?)),
        // (DO)
        0x4B => Ok(shaped(start_loop(machine, memory, r)?)),
        // UNLOOP
        0x50 => Ok(shaped(unloop(machine, memory, r)?)),
        // J
        0x51 => Ok(shaped(outer_index(machine, memory, r)?)),
        // THROW
        0x54 => Ok(shaped(Request {
            sp: r.sp,
            rp: r.rp,
            stores: (),
            then: Then::Throw,
        })),
        // HALT
        0x55 => Ok(shaped(halt(machine, memory, r)?)),
        // LIB
        0x57 => Ok(shaped(lib(machine, memory, r)?)),
        // never reached: from 42h on, those above are all the plain kinds
        _ => Err(Fault::Illegal),
    }
}
