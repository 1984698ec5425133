// A short file by its input list.
ghost use Rattle.std.specs.Prelude.{◌≡◌, [], ◌∷◌, ◌+◌, ◌*◌, ◌≤◌, length};
ghost use Rattle.cell.specs.Refusals as refusals;
ghost use Rattle.pack_layout.specs.Listing.{judged_from};
ghost use Rattle.short_judging.specs.Operands.{operands_before};
ghost use Rattle.short_judging.specs.ShortFile.{short_count, operand_count, short_kind, short_listing};
ghost use Rattle.short_judging.specs.Judging.{other_count, judged_short};

use crate::operands::{operand_at, operands_of};
use cell::Refusal;
use pack_judging::check::judge_item;
use pack_judging::file::cell_at;
use pack_judging::kinds::class_of;
use pack_layout::MOST_ITEMS;

// Every item, lowest first. More operands than m, or fewer, refuse the file whatever its items are.
#[tactic(auto, using(crate::proofs::Turns::operands_most), unfolding(crate::specs::Operands::operands_before))]
fn judge_items(file: &[u8], n: usize, m: usize) -> Result<(), Refusal>
    requires n_value { (n ≡ short_count file.now) × (m ≡ operand_count file.now) }
    requires n_bound { (n ≤ 4096) × (length file.now ≡ 12 + n + 4 * m) }
    ensures { result ≡ refusals.after (refusals.judge (other_count (length file.now) n m (operands_before (short_kind file.now) n) ∷ [])) (judged_from (short_listing file.now) n 0) }
{
    let mut first = Ok(());
    let mut k: usize = 0;
    for i in 0..n {
        let c = class_of(file[12 + i]);
        let next = k + operands_of(c) as usize;
        if m < next {
            return Err(Refusal::OperandCount);
        }
        let x = operand_at(file, c, 12 + n + 4 * k);
        first = first.and(judge_item(c, n as u32, x));
        k = next;
    }
    if k != m {
        return Err(Refusal::OperandCount);
    }
    first
}

#[tactic(auto, using(crate::proofs::Passes::counts_reached, crate::proofs::Passes::other_size), unfolding(crate::specs::Judging::judged_short))]
pub fn judge_short(file: &[u8]) -> Result<(), Refusal>
    ensures { result ≡ judged_short file.now }
{
    let size = file.len();
    if size < 12 {
        return Err(Refusal::OperandCount);
    }
    let n = cell_at(file, 0) as usize;
    if n == 0 || MOST_ITEMS < n {
        return Err(Refusal::ItemCount);
    }
    let m = cell_at(file, 4) as usize;
    if size != 12 + n + 4 * m {
        return Err(Refusal::OperandCount);
    }
    judge_items(file, n, m)
}
