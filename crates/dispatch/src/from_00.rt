// Opcodes 00h to 15h: the data stack, comparison.
#![tactic(auto, unfolding(instruction::specs::Dispatch::execute_of, instruction::specs::Dispatch::decode_of, instruction::specs::Plain::plain_of))]

ghost use Rattle.std.specs.Prelude.{◌≡◌, length};
ghost use Rattle.machine.specs.Places as places;
ghost use Rattle.machine.specs.Commits as commits;
ghost use Rattle.instruction.specs.Dispatch as dispatch;

use crate::from_16::execute_from_16;
use cell::Fault;
use commits::commit::{commit, commit_none};
use machine::{Machine, Outcome, Registers, Step};
use operators::comparison::{equal, greater, less, not_equal, zero_equal, zero_greater, zero_less};
use stack_order::{minus_rot, rot, swap, tuck};
use storage::rolling::roll;
use storage::stack::{drop, dup, nip, over, pick, question_dup, r_fetch, r_from, to_r};

// One instruction by its opcode, up to its NEXT, throw or stop: its effect, then the commit of the effect's shape.
pub fn execute_from_00(
    machine: Machine,
    memory: &mut [u8],
    r: Registers,
    opcode: u32,
) -> Result<Step, Fault>
    requires { places.Fits machine (length memory.old) }
    ensures { commits.stepped memory.new (commits.step_of r result) ≡ dispatch.execute_of machine memory.old r (dispatch.decode_of opcode) }
{
    match opcode {
        // NEXT
        0x00 => Ok(Step {
            registers: r,
            outcome: Outcome::Next,
        }),
        // DUP
        0x01 => commit(machine, memory, r, dup(machine, memory, r)),
        // DROP
        0x02 => commit_none(machine, memory, r, drop(machine, memory, r)),
        // SWAP
        0x03 => commit(machine, memory, r, swap(machine, memory, r)),
        // OVER
        0x04 => commit(machine, memory, r, over(machine, memory, r)),
        // ROT
        0x05 => commit(machine, memory, r, rot(machine, memory, r)),
        // -ROT
        0x06 => commit(machine, memory, r, minus_rot(machine, memory, r)),
        // TUCK
        0x07 => commit(machine, memory, r, tuck(machine, memory, r)),
        // NIP
        0x08 => commit(machine, memory, r, nip(machine, memory, r)),
        // PICK
        0x09 => commit(machine, memory, r, pick(machine, memory, r)),
        // ROLL
        0x0A => commit(machine, memory, r, roll(machine, memory, r)),
        // ?DUP
        0x0B => commit(machine, memory, r, question_dup(machine, memory, r)),
        // >R
        0x0C => commit(machine, memory, r, to_r(machine, memory, r)),
        // R>
        0x0D => commit(machine, memory, r, r_from(machine, memory, r)),
        // R@
        0x0E => commit(machine, memory, r, r_fetch(machine, memory, r)),
        // <
        0x0F => commit(machine, memory, r, less(machine, memory, r)),
        // >
        0x10 => commit(machine, memory, r, greater(machine, memory, r)),
        // =
        0x11 => commit(machine, memory, r, equal(machine, memory, r)),
        // <>
        0x12 => commit(machine, memory, r, not_equal(machine, memory, r)),
        // 0<
        0x13 => commit(machine, memory, r, zero_less(machine, memory, r)),
        // 0>
        0x14 => commit(machine, memory, r, zero_greater(machine, memory, r)),
        // 0=
        0x15 => commit(machine, memory, r, zero_equal(machine, memory, r)),
        _ => execute_from_16(machine, memory, r, opcode),
    }
}
