// Opcodes 4Ch to 4Fh: the loops. Their two forms share one call of each effect, so that the compiler lays it into the dispatch.
#![tactic(auto, using(instruction::proofs::OpcodeLaws::loop_is), unfolding(instruction::specs::Dispatch::execute_of))]

ghost use Rattle.std.specs.Prelude.{◌≡◌, ◌/◌, length};
ghost use Rattle.machine.specs.Places as places;
ghost use Rattle.machine.specs.Effects as effects;
ghost use Rattle.machine.specs.Commits as commits;
ghost use Rattle.instruction.specs.Taking as taking;
ghost use Rattle.instruction.specs.Dispatch as dispatch;

use cell::Fault;
use commits::commit::commit;
use instruction::OperandForm;
use instruction::shape::onward;
use loops::{step_loop, step_plus_loop};
use machine::{CellStore, Machine, Registers, Request, Step};

// The immediate opcode is the odd one.
fn form_of(opcode: u32) -> OperandForm
    ensures { result ≡ dispatch.form_of opcode }
{
    if opcode % 2 == 0 {
        return OperandForm::InCell;
    }
    OperandForm::Immediate
}

// (LOOP) or (+LOOP).
fn loop_effect(
    machine: Machine,
    memory: &[u8],
    r: Registers,
    form: OperandForm,
    opcode: u32,
) -> Result<Request<Option<CellStore>>, Fault>
    requires { places.Fits machine (length memory.now) }
    ensures { effects.asked effects.maybe_store result ≡ taking.taking_at machine form (dispatch.loop_of opcode) memory.now r }
{
    if opcode < 0x4E {
        return step_loop(machine, memory, r, form);
    }
    step_plus_loop(machine, memory, r, form)
}

pub fn execute_loop(
    machine: Machine,
    memory: &mut [u8],
    r: Registers,
    opcode: u32,
) -> Result<Step, Fault>
    requires fits { places.Fits machine (length memory.old) }
    requires opcode_value { opcode / 4 ≡ 0x13 }
    ensures { commits.stepped memory.new (commits.step_of r result) ≡ dispatch.execute_of machine memory.old r (dispatch.decode_of opcode) }
{
    let form = form_of(opcode);
    let asked = loop_effect(machine, memory, r, form, opcode);
    Ok(onward(form, commit(machine, memory, r, asked)?))
}
