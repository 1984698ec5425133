// The instructions that take an operand.
ghost use Rattle.std.specs.Prelude.{◌≡◌, length};
ghost use Rattle.machine.specs.Places as places;
ghost use Rattle.machine.specs.Effects as effects;
ghost use Rattle.instruction.specs.Taking as taking;
ghost use Rattle.instruction.specs.declared.OperandForm.TheVariants as form;
ghost use Rattle.list_shapes.specs.Shapes as shapes;

use crate::looping::{propose_loop, propose_plus_loop};
use cell::Fault;
use flow::control::{branch, call, question_branch};
use flow::literals::literal;
use instruction::OperandForm;
use list_shapes::Shape;
use list_shapes::shaping::shaped;
use machine::{Machine, Registers, Request};

// What an instruction with its operand in A would do, by its kind.
pub fn propose_taking(
    machine: Machine,
    memory: &[u8],
    r: Registers,
    kind: u32,
) -> Result<Request<Shape>, Fault>
    requires { places.Fits machine (length memory.now) }
    ensures { effects.asked (shapes.shape_stores machine.order memory.now) result ≡ taking.taking_at machine form.Immediate (shapes.taking_kind kind) memory.now r }
{
    match kind {
        // BRANCH
        0x42 => Ok(shaped(branch(machine, memory, r, OperandForm::Immediate)?)),
        // ?BRANCH
        0x44 => Ok(shaped(question_branch(machine, memory, r, OperandForm::Immediate)?)),
        // CALL
        0x48 => Ok(shaped(call(machine, memory, r, OperandForm::Immediate)?)),
        // (LOOP)
        0x4C => Ok(shaped(propose_loop(machine, memory, r)?)),
        // (+LOOP)
        0x4E => Ok(shaped(propose_plus_loop(machine, memory, r)?)),
        // (LITERAL)
        _ => Ok(shaped(literal(machine, memory, r, OperandForm::Immediate)?)),
    }
}
