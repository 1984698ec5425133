// shorten: the short file of a listing file.
#![tactic(auto)]

ghost use Rattle.std.specs.Prelude.{◌≡◌, ◌++◌, ◌+◌, ◌*◌, ◌≤◌, length, drop};
ghost use Rattle.std.proofs.lemmas.List.Edits.{sets};
ghost use Rattle.pack_layout.specs.File.{file_count, filed};
ghost use Rattle.short_judging.specs.Operands.{in_turn};
ghost use Rattle.short_judging.specs.Judging.{kept_count};
ghost use Rattle.short_files.specs.Files.{kind_byte, kept_bytes};
ghost use Rattle.short_files.specs.Converted as answers;

use cell::Refusal;
use pack_judging::file::cell_at;
use pack_judging::kinds::class_of;
use short_files::writing::{put, put_kept};
use short_judging::file::count_operands;
use short_judging::operands::operands_of;

// Kinds and operands, in one pass. The header is written already.
fn write_items(file: &[u8], n: usize, output: &mut [u8])
    requires n_value { (n ≡ file_count file.now) × (n ≤ 4096) × (length file.now ≡ 8 + 5 * n) }
    requires file_in_bounds { 12 + n + 4 * kept_count file.now ≤ length output.old }
    ensures { output.new ≡ sets (sets output.old 12 (in_turn (kind_byte (filed file.now)) n)) (12 + n) (in_turn (kept_bytes (filed file.now)) n) }
{
    let mut at = 12 + n;
    for i in 0..n {
        let kind = file[8 + i];
        output[12 + i] = kind;
        let c = class_of(kind);
        put_kept(output, c, at, cell_at(file, 8 + n + 4 * i));
        at += 4 * operands_of(c) as usize;
    }
}

// The short file, with m operands, where the output has room.
fn write_short(file: &[u8], m: u32, output: &mut [u8])
    requires file_bound { (file_count file.now ≤ 4096) × (length file.now ≡ 8 + 5 * file_count file.now) }
    requires m_value { (m ≡ kept_count file.now) × (12 + file_count file.now + 4 * m ≤ length output.old) }
    ensures { output.new ≡ answers.shortened file.now ++ drop (length (answers.shortened file.now)) output.old }
{
    let n = cell_at(file, 0);
    put(output, 0, n);
    put(output, 4, m);
    put(output, 8, cell_at(file, 4));
    write_items(file, n as usize, output)
}

// The room for a short file of n items and m operands.
fn short_length(n: u32, m: u32) -> usize
    ensures { result ≡ 12 + n + 4 * m }
{
    12 + n as usize + 4 * (m as usize)
}

pub fn shorten(file: &[u8], output: &mut [u8]) -> Result<u32, Refusal>
    ensures { answers.converted_to output.new result ≡ answers.shorten_of file.now output.old }
{
    let m = count_operands(file)?;
    let size = short_length(cell_at(file, 0), m);
    if output.len() < size {
        return Err(Refusal::ShortOutput);
    }
    write_short(file, m, output);
    Ok(size as u32)
}

// A shortening into an output of some size.
pub fn judge_shorten(file: &[u8], size: usize) -> Result<(), Refusal>
    ensures { result ≡ answers.judge_shorten file.now size }
{
    let m = count_operands(file)?;
    if size < short_length(cell_at(file, 0), m) {
        return Err(Refusal::ShortOutput);
    }
    Ok(())
}
