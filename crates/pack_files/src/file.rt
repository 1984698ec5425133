// pack_file: a listing file.
ghost use Rattle.std.specs.Prelude.{◌≡◌, length, take};
ghost use Rattle.pack_layout.specs.File.{file_count, file_operands};
ghost use Rattle.packer.specs.Pack as answers;
ghost use Rattle.pack_files.specs.Files as files;

use cell::{Address, CellCount, Refusal};
use pack_judging::file::{cell_at, judge_length, read_operands};
use pack_layout::MOST_ITEMS;
use pack_refusals::judgement::{judge_order, judge_pack};
use packer::pack::pack;

// The byte order, the file's length and its count of items, with which the packing of a file begins.
#[tactic(auto, using(pack_judging::proofs::Reading::length_of), unfolding(crate::specs::Files::judge_header))]
fn judge_header(order: u8, file: &[u8]) -> Result<(), Refusal>
    ensures { result ≡ files.judge_header order file.now }
{
    judge_order(order)?;
    judge_length(file)?;
    if MOST_ITEMS < cell_at(file, 0) as usize {
        return Err(Refusal::ItemCount);
    }
    Ok(())
}

// The operands, in front of an array of as many as a file may have. What it needs of the stack goes before they are packed.
#[inline(never)]
fn operands_of(file: &[u8]) -> [u32; MOST_ITEMS]
    requires { files.Header file.now }
    ensures { (4096 ≡ length result) × (take (file_count file.now) result ≡ file_operands file.now) }
{
    let n = cell_at(file, 0) as usize;
    let mut operands = [0u32; MOST_ITEMS];
    read_operands(file, 8 + n, &mut operands[0..n]);
    operands
}

// Neither this nor its judgement is laid into a caller, where the operands of both would lie side by side.
#[inline(never)]
#[tactic(auto, using(crate::proofs::Filing::header_good, crate::proofs::Filing::pack_file_refused))]
pub fn pack_file(order: u8, file: &[u8], output: &mut [u8]) -> Result<CellCount, Refusal>
    ensures { answers.packed_to output.new result ≡ files.pack_file_of order file.now output.old }
{
    judge_header(order, file)?;
    let n = cell_at(file, 0) as usize;
    let base = Address(cell_at(file, 4));
    let end = 8 + n;
    let operands = operands_of(file);
    pack(order, &file[8..end], &operands[0..n], base, output)
}

// A packing of a file into an output of some size.
#[inline(never)]
#[tactic(auto, using(crate::proofs::Filing::header_good, crate::proofs::Filing::header_refused))]
pub fn judge_pack_file(order: u8, file: &[u8], size: usize) -> Result<(), Refusal>
    ensures { result ≡ files.judge_pack_file order file.now size }
{
    judge_header(order, file)?;
    let n = cell_at(file, 0) as usize;
    let base = Address(cell_at(file, 4));
    let end = 8 + n;
    let operands = operands_of(file);
    judge_pack(order, &file[8..end], &operands[0..n], base, size)
}
