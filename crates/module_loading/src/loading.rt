// load_object and load_first, which answer the number of cells loaded. specs/Answers.antt has document 01's numbers of each case.
#![tactic(auto, using(module_judging::proofs::ConditionLaws::load_good), unfolding(crate::specs::Answers::load_first_of))]

ghost use Rattle.std.specs.Prelude.{◌≡◌, ◌≤◌, length};
ghost use Rattle.module_judging.specs.Format as format;
ghost use Rattle.module_loading.specs.Answers as answers;

use cell::{Address, CellCount, Refusal};
use module_copying::copying::copy_cells;
use module_judging::judgement::{count_of, judge_load};

// The cells of a file: what follows its header, which is judged.
pub fn code_of(file: &[u8]) -> &[u8]
    requires { 12 ≤ length file.now }
    ensures { result.now ≡ format.code_of file.now }
{
    &file[12..]
}

// A load that is told to halt after a number of cells, first cell first.
pub fn load_first(
    order: u8,
    memory: &mut [u8],
    file: &[u8],
    address: Address,
    cells: CellCount,
) -> Result<CellCount, Refusal>
    ensures { answers.loaded_to memory.new result ≡ answers.load_first_of order memory.old file.now address.0 cells.0 }
{
    judge_load(memory.len(), order, file, address)?;
    let first = CellCount(cells.0.min(count_of(file).0));
    copy_cells(file[7], order, code_of(file), memory, address, first);
    Ok(first)
}

// A load with no halt: no file has more cells than a cell can count.
#[tactic(auto, using(crate::proofs::AnswerLaws::all_whole), unfolding(cell::specs::Memory::Bytewise))]
pub fn load_object(
    order: u8,
    memory: &mut [u8],
    file: &[u8],
    address: Address,
) -> Result<CellCount, Refusal>
    ensures { answers.loaded_to memory.new result ≡ answers.load_of order memory.old file.now address.0 }
{
    load_first(order, memory, file, address, CellCount(0xFFFFFFFF))
}
