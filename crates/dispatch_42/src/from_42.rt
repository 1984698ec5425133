// Opcodes 42h to FFh: control, literals, exceptions.
#![tactic(auto, unfolding(instruction::specs::Dispatch::execute_of, instruction::specs::Dispatch::decode_of, instruction::specs::Plain::plain_of))]

ghost use Rattle.std.specs.Prelude.{◌≡◌, ◌≤◌, length};
ghost use Rattle.machine.specs.Places as places;
ghost use Rattle.machine.specs.Commits as commits;
ghost use Rattle.instruction.specs.Dispatch as dispatch;

use crate::looping::execute_loop;
use cell::Fault;
use commits::commit::{commit, commit_none};
use flow::control::{branch, call, execute, exit, fetch_execute, question_branch};
use flow::halting::{halt, lib};
use flow::literals::literal;
use instruction::OperandForm;
use instruction::shape::onward;
use loops::{outer_index, start_loop, unloop};
use machine::{Machine, Outcome, Registers, Request, Step, Then};

pub fn execute_from_42(
    machine: Machine,
    memory: &mut [u8],
    r: Registers,
    opcode: u32,
) -> Result<Step, Fault>
    requires fits { places.Fits machine (length memory.old) }
    requires le_opcode { 66 ≤ opcode }
    ensures { commits.stepped memory.new (commits.step_of r result) ≡ dispatch.execute_of machine memory.old r (dispatch.decode_of opcode) }
{
    match opcode {
        // BRANCH
        0x42 => Ok(onward(
            OperandForm::InCell,
            commit_none(
                machine,
                memory,
                r,
                branch(machine, memory, r, OperandForm::InCell),
            )?,
        )),
        // BRANCHI
        0x43 => Ok(onward(
            OperandForm::Immediate,
            commit_none(
                machine,
                memory,
                r,
                branch(machine, memory, r, OperandForm::Immediate),
            )?,
        )),
        // ?BRANCH
        0x44 => Ok(onward(
            OperandForm::InCell,
            commit_none(
                machine,
                memory,
                r,
                question_branch(machine, memory, r, OperandForm::InCell),
            )?,
        )),
        // ?BRANCHI
        0x45 => Ok(onward(
            OperandForm::Immediate,
            commit_none(
                machine,
                memory,
                r,
                question_branch(machine, memory, r, OperandForm::Immediate),
            )?,
        )),
        // EXECUTE
        0x46 => commit(machine, memory, r, execute(machine, memory, r)),
        // @EXECUTE
        0x47 => commit(machine, memory, r, fetch_execute(machine, memory, r)),
        // CALL
        0x48 => Ok(onward(
            OperandForm::InCell,
            commit(
                machine,
                memory,
                r,
                call(machine, memory, r, OperandForm::InCell),
            )?,
        )),
        // CALLI
        0x49 => Ok(onward(
            OperandForm::Immediate,
            commit(
                machine,
                memory,
                r,
                call(machine, memory, r, OperandForm::Immediate),
            )?,
        )),
        // EXIT
        0x4A => commit_none(machine, memory, r, exit(machine, memory, r)),
        // (DO)
        0x4B => commit(machine, memory, r, start_loop(machine, memory, r)),
        // (LOOP), (LOOP)I, (+LOOP), (+LOOP)I
        0x4C | 0x4D | 0x4E | 0x4F => execute_loop(machine, memory, r, opcode),
        // UNLOOP
        0x50 => commit_none(machine, memory, r, unloop(machine, memory, r)),
        // J
        0x51 => commit(machine, memory, r, outer_index(machine, memory, r)),
        // (LITERAL)
        0x52 => Ok(onward(
            OperandForm::InCell,
            commit(
                machine,
                memory,
                r,
                literal(machine, memory, r, OperandForm::InCell),
            )?,
        )),
        // (LITERAL)I
        0x53 => Ok(onward(
            OperandForm::Immediate,
            commit(
                machine,
                memory,
                r,
                literal(machine, memory, r, OperandForm::Immediate),
            )?,
        )),
        // THROW
        0x54 => {
            let throwing = Request {
                sp: r.sp,
                rp: r.rp,
                stores: (),
                then: Then::Throw,
            };
            commit_none(machine, memory, r, Ok(throwing))
        }
        // HALT
        0x55 => commit_none(machine, memory, r, halt(machine, memory, r)),
        // LIB
        0x57 => commit_none(machine, memory, r, lib(machine, memory, r)),
        // NEXT at FFh, tested here so that the table of jumps ends at 57h; the other opcodes raise -256
        _ => {
            if opcode != 0xFF {
                return Err(Fault::Illegal);
            }
            Ok(Step {
                registers: r,
                outcome: Outcome::Next,
            })
        }
    }
}
