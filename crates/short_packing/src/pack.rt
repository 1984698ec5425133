// pack_short: a short listing file.
ghost use Rattle.std.specs.Prelude.{◌≡◌, ◌*◌, ◌+◌, ◌≤◌, length, take};
ghost use Rattle.short_judging.specs.Operands.{operands_before};
ghost use Rattle.short_judging.specs.ShortFile.{short_count, short_kind, short_operands};
ghost use Rattle.packer.specs.Pack as answers;
ghost use Rattle.short_packing.specs.Packing as packing;

use cell::{Address, CellCount, Refusal};
use pack_judging::file::cell_at;
use pack_judging::kinds::class_of;
use pack_layout::MOST_ITEMS;
use pack_refusals::judgement::{judge_order, judge_pack};
use packer::pack::pack;
use short_judging::operands::{operand_at, operands_of};
use short_judging::short::judge_short;

#[tactic(auto, unfolding(crate::specs::Packing::judge_input))]
fn judge_input(order: u8, file: &[u8]) -> Result<(), Refusal>
    ensures { result ≡ packing.judge_input order file.now }
{
    judge_order(order)?;
    judge_short(file)
}

// The operand of each item, in front of an array of as many as a file may have.
fn operands_in(file: &[u8]) -> [u32; MOST_ITEMS]
    requires { (short_count file.now ≤ 4096) × (12 + short_count file.now + 4 * operands_before (short_kind file.now) (short_count file.now) ≤ length file.now) }
    ensures { (4096 ≡ length result) × (take (short_count file.now) result ≡ short_operands file.now) }
{
    let n = cell_at(file, 0) as usize;
    let mut operands = [0u32; MOST_ITEMS];
    let mut at = 12 + n;
    for i in 0..n {
        let c = class_of(file[12 + i]);
        operands[i] = operand_at(file, c, at);
        at += 4 * operands_of(c) as usize;
    }
    operands
}

#[tactic(auto, using(short_judging::proofs::Passing::short_good, crate::proofs::Packing::input_good, crate::proofs::Packing::pack_refused))]
pub fn pack_short(order: u8, file: &[u8], output: &mut [u8]) -> Result<CellCount, Refusal>
    ensures { answers.packed_to output.new result ≡ packing.pack_short_of order file.now output.old }
{
    judge_input(order, file)?;
    let n = cell_at(file, 0) as usize;
    let base = Address(cell_at(file, 8));
    let end = 12 + n;
    let operands = operands_in(file);
    pack(order, &file[12..end], &operands[0..n], base, output)
}

// A packing of a short file into an output of some size.
#[tactic(auto, using(short_judging::proofs::Passing::short_good, crate::proofs::Packing::input_good))]
pub fn judge_pack_short(order: u8, file: &[u8], size: usize) -> Result<(), Refusal>
    ensures { result ≡ packing.judge_pack_short order file.now size }
{
    judge_input(order, file)?;
    let n = cell_at(file, 0) as usize;
    let base = Address(cell_at(file, 8));
    let end = 12 + n;
    let operands = operands_in(file);
    judge_pack(order, &file[12..end], &operands[0..n], base, size)
}
