// The processor's calls. Each judges first, and writes nothing that was lent where it refuses.
#![tactic(auto, using(processor_calls::proofs::CallLaws::call_roomy), unfolding(processor_calls::specs::Machines::cycle_call, processor_calls::specs::Machines::run_call))]

ghost use Rattle.std.specs.Prelude.{◌≡◌};
ghost use Rattle.processor_calls.specs.Machines as machines;
ghost use Rattle.processor.specs.Answers as answers;
ghost use Rattle.machine.specs.Places.{table_of};
ghost use Rattle.areas.specs.Areas.{areas_of};

use lent_arrays::lending::{make_areas, make_table, read_registers};
use processor::entry::{cycle, run};
use processor_calls::machines::{judge_with, tell_cycled, tell_ran};
use start_calls::call_start;

#[unsafe(no_mangle)]
pub extern "C" fn beetle_start(
    order: u8,
    memory: &mut [u8],
    ep: u32,
    handler: u32,
    data_top: u32,
    data_cells: u32,
    return_top: u32,
    return_cells: u32,
    table: u32,
    table_end: u32,
    registers: &mut [u32],
    out: &mut [u32],
) -> u32
    ensures { machines.called memory.new registers.new out.new result ≡ machines.start_call order (areas_of data_top data_cells return_top return_cells) (table_of table table_end) memory.old ep handler registers.old out.old }
{
    let areas = make_areas(data_top, data_cells, return_top, return_cells);
    let given = make_table(table, table_end);
    call_start(order, memory, ep, handler, areas, given, registers, out)
}

#[unsafe(no_mangle)]
pub extern "C" fn beetle_cycle(
    order: u8,
    memory: &mut [u8],
    table: u32,
    table_end: u32,
    registers: &mut [u32],
    out: &mut [u32],
) -> u32
    ensures { machines.called memory.new registers.new out.new result ≡ machines.cycle_call order (table_of table table_end) memory.old registers.old out.old }
{
    let given = make_table(table, table_end);
    match judge_with(memory.len(), order, given, registers, out.len(), 1) {
        Err(n) => u32::from(n),
        Ok(()) => {
            let r = read_registers(registers);
            tell_cycled(cycle(order, memory, given, r), registers, out)
        }
    }
}

#[unsafe(no_mangle)]
pub extern "C" fn beetle_run(
    order: u8,
    memory: &mut [u8],
    table: u32,
    table_end: u32,
    registers: &mut [u32],
    budget: u32,
    out: &mut [u32],
) -> u32
    ensures { machines.called memory.new registers.new out.new result ≡ machines.run_call (answers.given_of order (table_of table table_end) memory.old registers.old budget) out.old }
{
    let given = make_table(table, table_end);
    match judge_with(memory.len(), order, given, registers, out.len(), 2) {
        Err(n) => u32::from(n),
        Ok(()) => {
            let r = read_registers(registers);
            tell_ran(run(order, memory, given, r, budget), budget, registers, out)
        }
    }
}
