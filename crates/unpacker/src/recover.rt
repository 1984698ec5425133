// The listing of an image, in working arrays.
ghost use Rattle.std.specs.Prelude.{◌≡◌, ℕ, ◌/◌, ◌<◌, length, get_or};
ghost use Rattle.cell.specs.Refusals.{passed};
ghost use Rattle.pack_layout.specs.Kinds.{class_of};
ghost use Rattle.pack_layout.specs.Listing.{listed};
ghost use Rattle.pack_layout.specs.Reading.{cells_of, items_read};
ghost use Rattle.pack_layout.specs.Unpacking.{packs_to};
ghost use Rattle.unpack_reading.specs.Arrays.{operand_in};
ghost use Rattle.unpack_judging.specs.Judgement as place;
ghost use Rattle.unpacker.specs.Judgement as judgement;
ghost use Rattle.unpacker.specs.Unpack as answers;

use crate::{MOST_BYTES, MOST_CELLS};
use cell::{Address, Refusal};
use pack_layout::MOST_ITEMS;
use unpack_comparing::compare::packs_to;
use unpack_judging::judgement::judge_place;
use unpack_reading::NO_ITEM;
use unpack_reading::items::read_items;
use unpack_reading::targets::find_targets;

// Finds the targets of the branches that were read, and whether the listing packs to the image.
fn packs_again(
    order: u8,
    base: Address,
    kinds: &[u8],
    operands: &mut [u32],
    firsts: &[u16],
    image: &[u8],
    copy: &mut [u8],
) -> bool
    requires operands_len { (length operands.old ≡ length kinds.now) × (length copy.old ≡ length image.now) }
    requires image_value { place.judge_place order base.0 (length image.now) ≡ passed }
    ensures value { result ≡ packs_to order base.0 (listed kinds.now operands.new) image.now }
    ensures by_index { (j : ℕ) → j < length operands.old → get_or operands.new j 0 ≡ operand_in (class_of (get_or kinds.now j 0)) base.0 firsts.now (get_or operands.old j 0) }
{
    find_targets(kinds, operands, firsts, base);
    packs_to(order, base, kinds, operands, image, copy)
}

// Reads an image whose place is passed, packs what was read and compares. The answer is the number of items.
fn recover_in(
    order: u8,
    image: &[u8],
    base: Address,
    kinds: &mut [u8],
    operands: &mut [u32],
    firsts: &mut [u16],
    copy: &mut [u8],
) -> Result<u32, Refusal>
    requires kinds_len { (length kinds.old ≡ 4096) × (length operands.old ≡ 4096) × (length firsts.old ≡ length image.now / 4) × (length copy.old ≡ length image.now) }
    requires by_index { (c : ℕ) → c < length firsts.old → get_or firsts.old c 0 ≡ 4096 }
    requires image_value { place.judge_place order base.0 (length image.now) ≡ passed }
    ensures value { result ≡ answers.read_if (judgement.judge_read order base.0 image.now) (items_read (cells_of order image.now)) }
    ensures recovered { answers.Recovered order base.0 image.now kinds.new operands.new }
{
    let n = read_items(order, image, base, kinds, operands, firsts);
    if MOST_ITEMS < n {
        return Err(Refusal::NoListing);
    }
    if packs_again(
        order,
        base,
        &kinds[0..n],
        &mut operands[0..n],
        firsts,
        image,
        copy,
    ) {
        return Ok(n as u32);
    }
    Err(Refusal::NoListing)
}

// The same for any image.
pub fn recover(
    order: u8,
    image: &[u8],
    base: Address,
    kinds: &mut [u8],
    operands: &mut [u32],
) -> Result<u32, Refusal>
    requires { (length kinds.old ≡ 4096) × (length operands.old ≡ 4096) }
    ensures value { result ≡ answers.read_if (judgement.judge_read order base.0 image.now) (items_read (cells_of order image.now)) }
    ensures recovered { answers.Recovered order base.0 image.now kinds.new operands.new }
{
    judge_place(order, base, image.len())?;
    let n = image.len();
    if MOST_BYTES < n {
        return Err(Refusal::NoListing);
    }
    let mut firsts = [NO_ITEM; MOST_CELLS];
    let mut copy = [0u8; MOST_BYTES];
    recover_in(
        order,
        image,
        base,
        kinds,
        operands,
        &mut firsts[0..n / 4],
        &mut copy[0..n],
    )
}
