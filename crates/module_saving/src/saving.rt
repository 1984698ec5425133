// save_object, which answers the number of bytes written.
#![tactic(auto, using(module_judging::proofs::ConditionLaws::save_good, crate::proofs::AnswerLaws::saved_is, crate::proofs::HeaderLaws::header_written), unfolding(crate::specs::Answers::save_of, cell::specs::Memory::Bytewise))]

ghost use Rattle.std.specs.Prelude.{◌≡◌, ◌++◌, ◌≤◌, length, drop};
ghost use Rattle.module_judging.specs.Format as format;
ghost use Rattle.module_saving.specs.Answers as answers;

use cell::memory::store_at;
use cell::{Address, CellCount, Refusal};
use module_copying::copying::copy_at;
use module_judging::judgement::judge_save;

// The first twelve bytes of a module.
fn write_header(order: u8, cells: CellCount, output: &mut [u8])
    requires { 12 ≤ length output.old }
    ensures { output.new ≡ format.header_of order cells.0 ++ drop 12 output.old }
{
    output[..7].copy_from_slice(b"BEETLE\0");
    output[7] = order;
    store_at(order, output, 8, cells.0)
}

pub fn save_object(
    order: u8,
    memory: &[u8],
    address: Address,
    cells: CellCount,
    output: &mut [u8],
) -> Result<u32, Refusal>
    ensures { answers.saved_to output.new result ≡ answers.save_of order memory.now address.0 cells.0 output.old }
{
    judge_save(memory.len(), order, address, cells, output.len())?;
    write_header(order, cells, output);
    let at = address.0 as usize;
    copy_at(order, order, &memory[at..], output, 12, cells);
    Ok(12 + 4 * cells.0)
}
