// Opcodes 2Ch to 41h: arithmetic, logic, memory, the stack pointers.
#![tactic(auto, unfolding(instruction::specs::Dispatch::execute_of, instruction::specs::Dispatch::decode_of, instruction::specs::Plain::plain_of))]

ghost use Rattle.std.specs.Prelude.{◌≡◌, ◌≤◌, length};
ghost use Rattle.machine.specs.Places as places;
ghost use Rattle.machine.specs.Commits as commits;
ghost use Rattle.instruction.specs.Dispatch as dispatch;

use cell::Fault;
use commits::commit::{commit, commit_none};
use dispatch_42::from_42::execute_from_42;
use instruction::shape::push;
use machine::{Machine, Registers, Step};
use operators::arithmetic::{abs, cells, max, min, negate};
use operators::logic::{and, invert, l_shift, one_l_shift, one_r_shift, or, r_shift, xor};
use storage::memory::{c_fetch, c_store, fetch_named, plus_store, store_named};
use storage::registers::{rp_store, sp_store};

pub fn execute_from_2c(
    machine: Machine,
    memory: &mut [u8],
    r: Registers,
    opcode: u32,
) -> Result<Step, Fault>
    requires fits { places.Fits machine (length memory.old) }
    requires le_opcode { 44 ≤ opcode }
    ensures { commits.stepped memory.new (commits.step_of r result) ≡ dispatch.execute_of machine memory.old r (dispatch.decode_of opcode) }
{
    match opcode {
        // CELLS
        0x2C => commit(machine, memory, r, cells(machine, memory, r)),
        // ABS
        0x2D => commit(machine, memory, r, abs(machine, memory, r)),
        // NEGATE
        0x2E => commit(machine, memory, r, negate(machine, memory, r)),
        // MAX
        0x2F => commit(machine, memory, r, max(machine, memory, r)),
        // MIN
        0x30 => commit(machine, memory, r, min(machine, memory, r)),
        // INVERT
        0x31 => commit(machine, memory, r, invert(machine, memory, r)),
        // AND
        0x32 => commit(machine, memory, r, and(machine, memory, r)),
        // OR
        0x33 => commit(machine, memory, r, or(machine, memory, r)),
        // XOR
        0x34 => commit(machine, memory, r, xor(machine, memory, r)),
        // LSHIFT
        0x35 => commit(machine, memory, r, l_shift(machine, memory, r)),
        // RSHIFT
        0x36 => commit(machine, memory, r, r_shift(machine, memory, r)),
        // 1LSHIFT
        0x37 => commit(machine, memory, r, one_l_shift(machine, memory, r)),
        // 1RSHIFT
        0x38 => commit(machine, memory, r, one_r_shift(machine, memory, r)),
        // @
        0x39 => commit(machine, memory, r, fetch_named(machine, memory, r)),
        // !
        0x3A => commit(machine, memory, r, store_named(machine, memory, r)),
        // C@
        0x3B => commit(machine, memory, r, c_fetch(machine, memory, r)),
        // C!
        0x3C => commit(machine, memory, r, c_store(machine, memory, r)),
        // +!
        0x3D => commit(machine, memory, r, plus_store(machine, memory, r)),
        // SP@
        0x3E => commit(machine, memory, r, Ok(push(r, r.sp))),
        // SP!
        0x3F => commit_none(machine, memory, r, sp_store(machine, memory, r)),
        // RP@
        0x40 => commit(machine, memory, r, Ok(push(r, r.rp))),
        // RP!
        0x41 => commit_none(machine, memory, r, rp_store(machine, memory, r)),
        _ => execute_from_42(machine, memory, r, opcode),
    }
}
