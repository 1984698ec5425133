// Literals.
#![tactic(auto, unfolding(instruction::specs::Taking::taking_of))]

ghost use Rattle.std.specs.Prelude.{◌≡◌, length};
ghost use Rattle.machine.specs.Places as places;
ghost use Rattle.machine.specs.Effects as effects;
ghost use Rattle.instruction.specs.Taking as taking;

use cell::Fault;
use instruction::OperandForm;
use instruction::shape::{literal_operand, push};
use machine::{CellStore, Machine, Registers, Request};

// 52h (LITERAL), 53h (LITERAL)I ( -- x )
pub fn literal(
    machine: Machine,
    memory: &[u8],
    r: Registers,
    form: OperandForm,
) -> Result<Request<CellStore>, Fault>
    requires { places.Fits machine (length memory.now) }
    ensures { effects.asked effects.one_store result ≡ taking.taking_at machine form taking.literal memory.now r }
{
    let x = literal_operand(machine, memory, r, form)?;
    Ok(push(r, x))
}
