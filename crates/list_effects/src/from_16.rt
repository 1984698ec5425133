// Opcodes 16h to 2Bh: comparison, constants, arithmetic.
#![tactic(auto, unfolding(instruction::specs::Dispatch::decode_of, instruction::specs::Plain::plain_of))]

ghost use Rattle.std.specs.Prelude.{◌≡◌, ◌≤◌, length};
ghost use Rattle.machine.specs.Places as places;
ghost use Rattle.machine.specs.Effects as effects;
ghost use Rattle.instruction.specs.Plain as plain;
ghost use Rattle.instruction.specs.Dispatch as dispatch;
ghost use Rattle.list_shapes.specs.Shapes as shapes;

use crate::from_2c::propose_from_2c;
use cell::Fault;
use instruction::shape::push;
use list_shapes::Shape;
use list_shapes::shaping::shaped;
use machine::{Machine, Registers, Request};
use operators::arithmetic::{
    cell_minus, cell_plus, minus, modulo, one_minus, one_plus, plus, s_slash_rem, slash, slash_mod,
    star, swap_minus, two_slash, u_slash_mod,
};
use operators::comparison::{u_greater, u_less, zero_not_equal};

pub fn propose_from_16(
    machine: Machine,
    memory: &[u8],
    r: Registers,
    opcode: u32,
) -> Result<Request<Shape>, Fault>
    requires fits { places.Fits machine (length memory.now) }
    requires le_opcode { 22 ≤ opcode }
    ensures { effects.asked (shapes.shape_stores machine.order memory.now) result ≡ plain.plain_at machine (dispatch.decode_of opcode) memory.now r }
{
    match opcode {
        // 0<>
        0x16 => Ok(shaped(zero_not_equal(machine, memory, r)?)),
        // U<
        0x17 => Ok(shaped(u_less(machine, memory, r)?)),
        // U>
        0x18 => Ok(shaped(u_greater(machine, memory, r)?)),
        // 0
        0x19 => Ok(shaped(push(r, 0))),
        // 1
        0x1A => Ok(shaped(push(r, 1))),
        // -1
        0x1B => Ok(shaped(push(r, 0xFFFFFFFF))),
        // CELL
        0x1C => Ok(shaped(push(r, 4))),
        // -CELL
        0x1D => Ok(shaped(push(r, 0xFFFFFFFC))),
        // +
        0x1E => Ok(shaped(plus(machine, memory, r)?)),
        // -
        0x1F => Ok(shaped(minus(machine, memory, r)?)),
        // >-<
        0x20 => Ok(shaped(swap_minus(machine, memory, r)?)),
        // 1+
        0x21 => Ok(shaped(one_plus(machine, memory, r)?)),
        // 1-
        0x22 => Ok(shaped(one_minus(machine, memory, r)?)),
        // CELL+
        0x23 => Ok(shaped(cell_plus(machine, memory, r)?)),
        // CELL-
        0x24 => Ok(shaped(cell_minus(machine, memory, r)?)),
        // *
        0x25 => Ok(shaped(star(machine, memory, r)?)),
        // /
        0x26 => Ok(shaped(slash(machine, memory, r)?)),
        // MOD
        0x27 => Ok(shaped(modulo(machine, memory, r)?)),
        // /MOD
        0x28 => Ok(shaped(slash_mod(machine, memory, r)?)),
        // U/MOD
        0x29 => Ok(shaped(u_slash_mod(machine, memory, r)?)),
        // S/REM
        0x2A => Ok(shaped(s_slash_rem(machine, memory, r)?)),
        // 2/
        0x2B => Ok(shaped(two_slash(machine, memory, r)?)),
        _ => propose_from_2c(machine, memory, r, opcode),
    }
}
