// Opcodes 01h to 15h: the data stack, comparison.
#![tactic(auto, unfolding(instruction::specs::Dispatch::decode_of, instruction::specs::Plain::plain_of))]

ghost use Rattle.std.specs.Prelude.{◌≡◌, ◌≤◌, length};
ghost use Rattle.machine.specs.Places as places;
ghost use Rattle.machine.specs.Effects as effects;
ghost use Rattle.instruction.specs.Plain as plain;
ghost use Rattle.instruction.specs.Dispatch as dispatch;
ghost use Rattle.list_shapes.specs.Shapes as shapes;

use crate::from_16::propose_from_16;
use cell::Fault;
use list_shapes::Shape;
use list_shapes::shaping::shaped;
use machine::{Machine, Registers, Request};
use operators::comparison::{equal, greater, less, not_equal, zero_equal, zero_greater, zero_less};
use stack_order::{minus_rot, rot, swap, tuck};
use storage::rolling::roll;
use storage::stack::{drop, dup, nip, over, pick, question_dup, r_fetch, r_from, to_r};

// What an instruction without an operand would do, by its opcode.
pub fn propose_from_01(
    machine: Machine,
    memory: &[u8],
    r: Registers,
    opcode: u32,
) -> Result<Request<Shape>, Fault>
    requires fits { places.Fits machine (length memory.now) }
    requires le_opcode { 1 ≤ opcode }
    ensures { effects.asked (shapes.shape_stores machine.order memory.now) result ≡ plain.plain_at machine (dispatch.decode_of opcode) memory.now r }
{
    match opcode {
        // DUP
        0x01 => Ok(shaped(dup(machine, memory, r)?)),
        // DROP
        0x02 => Ok(shaped(drop(machine, memory, r)?)),
        // SWAP
        0x03 => Ok(shaped(swap(machine, memory, r)?)),
        // OVER
        0x04 => Ok(shaped(over(machine, memory, r)?)),
        // ROT
        0x05 => Ok(shaped(rot(machine, memory, r)?)),
        // -ROT
        0x06 => Ok(shaped(minus_rot(machine, memory, r)?)),
        // TUCK
        0x07 => Ok(shaped(tuck(machine, memory, r)?)),
        // NIP
        0x08 => Ok(shaped(nip(machine, memory, r)?)),
        // PICK
        0x09 => Ok(shaped(pick(machine, memory, r)?)),
        // ROLL
        0x0A => Ok(shaped(roll(machine, memory, r)?)),
        // ?DUP
        0x0B => Ok(shaped(question_dup(machine, memory, r)?)),
        // >R
        0x0C => Ok(shaped(to_r(machine, memory, r)?)),
        // R>
        0x0D => Ok(shaped(r_from(machine, memory, r)?)),
        // R@
        0x0E => Ok(shaped(r_fetch(machine, memory, r)?)),
        // <
        0x0F => Ok(shaped(less(machine, memory, r)?)),
        // >
        0x10 => Ok(shaped(greater(machine, memory, r)?)),
        // =
        0x11 => Ok(shaped(equal(machine, memory, r)?)),
        // <>
        0x12 => Ok(shaped(not_equal(machine, memory, r)?)),
        // 0<
        0x13 => Ok(shaped(zero_less(machine, memory, r)?)),
        // 0>
        0x14 => Ok(shaped(zero_greater(machine, memory, r)?)),
        // 0=
        0x15 => Ok(shaped(zero_equal(machine, memory, r)?)),
        _ => propose_from_16(machine, memory, r, opcode),
    }
}
