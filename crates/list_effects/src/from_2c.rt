// Opcodes 2Ch to 41h: arithmetic, logic, memory, the stack pointers.
#![tactic(auto, unfolding(instruction::specs::Dispatch::decode_of, instruction::specs::Plain::plain_of))]

ghost use Rattle.std.specs.Prelude.{◌≡◌, ◌≤◌, length};
ghost use Rattle.machine.specs.Places as places;
ghost use Rattle.machine.specs.Effects as effects;
ghost use Rattle.instruction.specs.Plain as plain;
ghost use Rattle.instruction.specs.Dispatch as dispatch;
ghost use Rattle.list_shapes.specs.Shapes as shapes;

use crate::from_46::propose_from_46;
use cell::Fault;
use instruction::shape::push;
use list_shapes::Shape;
use list_shapes::shaping::shaped;
use machine::{Machine, Registers, Request};
use operators::arithmetic::{abs, cells, max, min, negate};
use operators::logic::{and, invert, l_shift, one_l_shift, one_r_shift, or, r_shift, xor};
use storage::memory::{c_fetch, c_store, fetch_named, plus_store, store_named};
use storage::registers::{rp_store, sp_store};

pub fn propose_from_2c(
    machine: Machine,
    memory: &[u8],
    r: Registers,
    opcode: u32,
) -> Result<Request<Shape>, Fault>
    requires fits { places.Fits machine (length memory.now) }
    requires le_opcode { 44 ≤ opcode }
    ensures { effects.asked (shapes.shape_stores machine.order memory.now) result ≡ plain.plain_at machine (dispatch.decode_of opcode) memory.now r }
{
    match opcode {
        // CELLS
        0x2C => Ok(shaped(cells(machine, memory, r)?)),
        // ABS
        0x2D => Ok(shaped(abs(machine, memory, r)?)),
        // NEGATE
        0x2E => Ok(shaped(negate(machine, memory, r)?)),
        // MAX
        0x2F => Ok(shaped(max(machine, memory, r)?)),
        // MIN
        0x30 => Ok(shaped(min(machine, memory, r)?)),
        // INVERT
        0x31 => Ok(shaped(invert(machine, memory, r)?)),
        // AND
        0x32 => Ok(shaped(and(machine, memory, r)?)),
        // OR
        0x33 => Ok(shaped(or(machine, memory, r)?)),
        // XOR
        0x34 => Ok(shaped(xor(machine, memory, r)?)),
        // LSHIFT
        0x35 => Ok(shaped(l_shift(machine, memory, r)?)),
        // RSHIFT
        0x36 => Ok(shaped(r_shift(machine, memory, r)?)),
        // 1LSHIFT
        0x37 => Ok(shaped(one_l_shift(machine, memory, r)?)),
        // 1RSHIFT
        0x38 => Ok(shaped(one_r_shift(machine, memory, r)?)),
        // @
        0x39 => Ok(shaped(fetch_named(machine, memory, r)?)),
        // !
        0x3A => Ok(shaped(store_named(machine, memory, r)?)),
        // C@
        0x3B => Ok(shaped(c_fetch(machine, memory, r)?)),
        // C!
        0x3C => Ok(shaped(c_store(machine, memory, r)?)),
        // +!
        0x3D => Ok(shaped(plus_store(machine, memory, r)?)),
        // SP@
        0x3E => Ok(shaped(push(r, r.sp))),
        // SP!
        0x3F => Ok(shaped(sp_store(machine, memory, r)?)),
        // RP@
        0x40 => Ok(shaped(push(r, r.rp))),
        // RP!
        0x41 => Ok(shaped(rp_store(machine, memory, r)?)),
        _ => propose_from_46(machine, memory, r, opcode),
    }
}
