// Opcodes 16h to 2Bh: comparison, constants, arithmetic.
#![tactic(auto, unfolding(instruction::specs::Dispatch::execute_of, instruction::specs::Dispatch::decode_of, instruction::specs::Plain::plain_of))]

ghost use Rattle.std.specs.Prelude.{◌≡◌, ◌≤◌, length};
ghost use Rattle.machine.specs.Places as places;
ghost use Rattle.machine.specs.Commits as commits;
ghost use Rattle.instruction.specs.Dispatch as dispatch;

use cell::Fault;
use commits::commit::commit;
use dispatch_2c::from_2c::execute_from_2c;
use instruction::shape::push;
use machine::{Machine, Registers, Step};
use operators::arithmetic::{
    cell_minus, cell_plus, minus, modulo, one_minus, one_plus, plus, s_slash_rem, slash, slash_mod,
    star, swap_minus, two_slash, u_slash_mod,
};
use operators::comparison::{u_greater, u_less, zero_not_equal};

pub fn execute_from_16(
    machine: Machine,
    memory: &mut [u8],
    r: Registers,
    opcode: u32,
) -> Result<Step, Fault>
    requires fits { places.Fits machine (length memory.old) }
    requires le_opcode { 22 ≤ opcode }
    ensures { commits.stepped memory.new (commits.step_of r result) ≡ dispatch.execute_of machine memory.old r (dispatch.decode_of opcode) }
{
    match opcode {
        // 0<>
        0x16 => commit(machine, memory, r, zero_not_equal(machine, memory, r)),
        // U<
        0x17 => commit(machine, memory, r, u_less(machine, memory, r)),
        // U>
        0x18 => commit(machine, memory, r, u_greater(machine, memory, r)),
        // 0
        0x19 => commit(machine, memory, r, Ok(push(r, 0))),
        // 1
        0x1A => commit(machine, memory, r, Ok(push(r, 1))),
        // -1
        0x1B => commit(machine, memory, r, Ok(push(r, 0xFFFFFFFF))),
        // CELL
        0x1C => commit(machine, memory, r, Ok(push(r, 4))),
        // -CELL
        0x1D => commit(machine, memory, r, Ok(push(r, 0xFFFFFFFC))),
        // +
        0x1E => commit(machine, memory, r, plus(machine, memory, r)),
        // -
        0x1F => commit(machine, memory, r, minus(machine, memory, r)),
        // >-<
        0x20 => commit(machine, memory, r, swap_minus(machine, memory, r)),
        // 1+
        0x21 => commit(machine, memory, r, one_plus(machine, memory, r)),
        // 1-
        0x22 => commit(machine, memory, r, one_minus(machine, memory, r)),
        // CELL+
        0x23 => commit(machine, memory, r, cell_plus(machine, memory, r)),
        // CELL-
        0x24 => commit(machine, memory, r, cell_minus(machine, memory, r)),
        // *
        0x25 => commit(machine, memory, r, star(machine, memory, r)),
        // /
        0x26 => commit(machine, memory, r, slash(machine, memory, r)),
        // MOD
        0x27 => commit(machine, memory, r, modulo(machine, memory, r)),
        // /MOD
        0x28 => commit(machine, memory, r, slash_mod(machine, memory, r)),
        // U/MOD
        0x29 => commit(machine, memory, r, u_slash_mod(machine, memory, r)),
        // S/REM
        0x2A => commit(machine, memory, r, s_slash_rem(machine, memory, r)),
        // 2/
        0x2B => commit(machine, memory, r, two_slash(machine, memory, r)),
        _ => execute_from_2c(machine, memory, r, opcode),
    }
}
