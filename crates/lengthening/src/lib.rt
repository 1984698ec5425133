// lengthen: the listing file of a short file.
#![tactic(auto)]

ghost use Rattle.std.specs.Prelude.{◌≡◌, ◌++◌, ◌+◌, ◌*◌, ◌≤◌, length, drop};
ghost use Rattle.std.proofs.lemmas.List.Edits.{sets};
ghost use Rattle.short_judging.specs.Operands.{operands_before, in_turn};
ghost use Rattle.short_judging.specs.ShortFile.{short_count, short_kind, short_listing};
ghost use Rattle.short_files.specs.Files.{kind_byte, operand_bytes};
ghost use Rattle.short_files.specs.Converted as answers;

use cell::Refusal;
use pack_judging::file::cell_at;
use pack_judging::kinds::class_of;
use short_files::writing::put;
use short_judging::operands::{operand_at, operands_of};
use short_judging::short::judge_short;

// Kinds and operands, in one pass. The header is written already.
fn write_items(file: &[u8], n: usize, output: &mut [u8])
    requires n_value { (n ≡ short_count file.now) × (n ≤ 4096) × (12 + n + 4 * operands_before (short_kind file.now) (short_count file.now) ≤ length file.now) }
    requires n_in_bounds { 8 + 5 * n ≤ length output.old }
    ensures { output.new ≡ sets (sets output.old 8 (in_turn (kind_byte (short_listing file.now)) n)) (8 + n) (in_turn (operand_bytes (short_listing file.now)) n) }
{
    let mut at = 12 + n;
    for i in 0..n {
        let kind = file[12 + i];
        output[8 + i] = kind;
        let c = class_of(kind);
        put(output, 8 + n + 4 * i, operand_at(file, c, at));
        at += 4 * operands_of(c) as usize;
    }
}

// The listing file, where the output has room.
fn write_long(file: &[u8], output: &mut [u8])
    requires file_bound { (short_count file.now ≤ 4096) × (12 + short_count file.now + 4 * operands_before (short_kind file.now) (short_count file.now) ≤ length file.now) }
    requires file_in_bounds { 8 + 5 * short_count file.now ≤ length output.old }
    ensures { output.new ≡ answers.lengthened file.now ++ drop (length (answers.lengthened file.now)) output.old }
{
    let n = cell_at(file, 0);
    put(output, 0, n);
    put(output, 4, cell_at(file, 8));
    write_items(file, n as usize, output)
}

// A lengthening into an output of some size.
#[tactic(auto, using(short_files::proofs::Answering::room_refused), unfolding(short_files::specs::Converted::judge_lengthen))]
pub fn judge_lengthen(file: &[u8], size: usize) -> Result<(), Refusal>
    ensures { result ≡ answers.judge_lengthen file.now size }
{
    judge_short(file)?;
    if size < 8 + 5 * (cell_at(file, 0) as usize) {
        return Err(Refusal::ShortOutput);
    }
    Ok(())
}

#[tactic(auto, using(short_files::proofs::Answering::convert_refused), unfolding(short_files::specs::Converted::lengthen_of))]
pub fn lengthen(file: &[u8], output: &mut [u8]) -> Result<u32, Refusal>
    ensures { answers.converted_to output.new result ≡ answers.lengthen_of file.now output.old }
{
    judge_lengthen(file, output.len())?;
    write_long(file, output);
    Ok(8 + 5 * cell_at(file, 0))
}
