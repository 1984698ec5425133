// A listing file on the way to a short one.
ghost use Rattle.std.specs.Prelude.{◌≡◌, ◌+◌, ◌*◌, ◌≤◌, length};
ghost use Rattle.pack_layout.specs.File.{file_count, filed};
ghost use Rattle.pack_layout.specs.Listing.{judged_from};
ghost use Rattle.short_judging.specs.Judging.{keeping, kept_count, counted_file};

use crate::operands::operands_of;
use cell::Refusal;
use pack_judging::check::judge_item;
use pack_judging::file::{cell_at, judge_length};
use pack_judging::kinds::class_of;
use pack_layout::MOST_ITEMS;

// Every item, lowest first. The answer is the number of operands that are kept.
#[tactic(auto, using(crate::proofs::Turns::operands_most), unfolding(crate::specs::Operands::operands_before))]
fn count_items(file: &[u8], n: usize) -> Result<u32, Refusal>
    requires { (n ≡ file_count file.now) × (n ≤ 4096) × (length file.now ≡ 8 + 5 * n) }
    ensures { result ≡ keeping (judged_from (filed file.now) n 0) (kept_count file.now) }
{
    let mut m: u32 = 0;
    for i in 0..n {
        let c = class_of(file[8 + i]);
        judge_item(c, n as u32, cell_at(file, 8 + n + 4 * i))?;
        m += operands_of(c);
    }
    Ok(m)
}

// A listing file by its input list. The answer is the number of operands of its short file.
#[tactic(auto, using(pack_judging::proofs::Reading::length_of, crate::proofs::Passes::file_counted), unfolding(crate::specs::Judging::counted_file, pack_layout::specs::File::judged_file))]
pub fn count_operands(file: &[u8]) -> Result<u32, Refusal>
    ensures { result ≡ counted_file file.now }
{
    judge_length(file)?;
    let n = cell_at(file, 0) as usize;
    if n == 0 || MOST_ITEMS < n {
        return Err(Refusal::ItemCount);
    }
    count_items(file, n)
}
