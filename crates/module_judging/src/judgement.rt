// What refuses a load or a save, in document 01's order. Sums are taken in 64 bits, where none can wrap.
#![tactic(auto, using(crate::proofs::ConditionLaws::file_good, crate::proofs::JudgeLaws::load_parts, crate::proofs::JudgeLaws::save_parts), unfolding(crate::specs::Format::count_of, crate::specs::Grounds::judge_file, crate::specs::Grounds::judge_place))]

ghost use Rattle.std.specs.Prelude.{◌≡◌, ◌≤◌, length};
ghost use Rattle.cell.specs.Memory.{cell_count};
ghost use Rattle.module_judging.specs.Format as format;
ghost use Rattle.module_judging.specs.Grounds as grounds;

use cell::judgement::judge_machine;
use cell::memory::load_at;
use cell::{Address, CellCount, Refusal};

// Whether the first seven bytes are "BEETLE", 00h.
fn is_titled(file: &[u8]) -> bool
    requires { 7 ≤ length file.now }
    ensures { result ≡ grounds.titled file.now }
{
    file.starts_with(b"BEETLE\0")
}

// The count in the header, in the order that the header names.
pub fn count_of(file: &[u8]) -> CellCount
    requires { 12 ≤ length file.now }
    ensures { result ≡ cell_count (format.count_of file.now) }
{
    CellCount(load_at(file[7], file, 8))
}

// The header, and the file's length against its count.
pub fn judge_file(file: &[u8]) -> Result<(), Refusal>
    ensures { result ≡ grounds.judge_file file.now }
{
    if file.len() < 8 || !is_titled(file) || 1 < file[7] {
        return Err(Refusal::Header);
    }
    if file.len() < 12 || file.len() != 12 + 4 * (count_of(file).0 as usize) {
        return Err(Refusal::FileLength);
    }
    Ok(())
}

// The place of a number of cells in a memory.
pub fn judge_place(length: usize, address: Address, cells: CellCount) -> Result<(), Refusal>
    ensures { result ≡ grounds.judge_place length address.0 cells.0 }
{
    if address.0 % 4 != 0 {
        return Err(Refusal::Unaligned);
    }
    if length <= address.0 as usize || length < (address.0 as usize) + 4 * (cells.0 as usize) {
        return Err(Refusal::Outside);
    }
    Ok(())
}

pub fn judge_load(length: usize, order: u8, file: &[u8], address: Address) -> Result<(), Refusal>
    ensures { result ≡ grounds.judge_load length order file.now address.0 }
{
    judge_machine(length, order)?;
    judge_file(file)?;
    judge_place(length, address, count_of(file))
}

pub fn judge_save(
    length: usize,
    order: u8,
    address: Address,
    cells: CellCount,
    size: usize,
) -> Result<(), Refusal>
    ensures { result ≡ grounds.judge_save length order address.0 cells.0 size }
{
    judge_machine(length, order)?;
    judge_place(length, address, cells)?;
    if size < 12 + 4 * (cells.0 as usize) {
        return Err(Refusal::ShortOutput);
    }
    Ok(())
}
