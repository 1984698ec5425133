// The call from C that starts the processor. It judges first, and writes nothing that was lent where it refuses.
#![tactic(auto, using(processor_calls::proofs::CallLaws::call_roomy), unfolding(processor_calls::specs::Machines::start_call))]

ghost use Rattle.std.specs.Prelude.{◌≡◌};
ghost use Rattle.processor_calls.specs.Machines as machines;

use areas::Areas;
use cell::Address;
use machine::Table;
use processor_calls::machines::{judge_call, tell_started};
use processor_start::entry::start;

pub fn call_start(
    order: u8,
    memory: &mut [u8],
    ep: u32,
    handler: u32,
    areas: Areas,
    table: Table,
    registers: &mut [u32],
    out: &mut [u32],
) -> u32
    ensures { machines.called memory.new registers.new out.new result ≡ machines.start_call order areas table memory.old ep handler registers.old out.old }
{
    let judged = judge_call(
        memory.len(),
        order,
        areas,
        table,
        registers.len(),
        out.len(),
        1,
    );
    match judged {
        Err(n) => u32::from(n),
        Ok(()) => {
            let answer = start(order, memory, Address(ep), Address(handler), areas, table);
            tell_started(answer, registers, out)
        }
    }
}
