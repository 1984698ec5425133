// unpack: an image in bytes.
ghost use Rattle.std.specs.Prelude.{◌≡◌, length};
ghost use Rattle.unpacker.specs.Judgement as judgement;
ghost use Rattle.unpacker.specs.Unpack as answers;

use crate::recover::recover;
use cell::{Address, Refusal};
use pack_layout::MOST_ITEMS;
use unpack_judging::judgement::judge_arrays;
use unpack_writing::arrays::write_listing;

// An unpacking into arrays of some lengths.
pub fn judge_unpack(
    order: u8,
    image: &[u8],
    base: Address,
    kinds: usize,
    operands: usize,
) -> Result<(), Refusal>
    ensures { result ≡ judgement.judge_unpack order base.0 image.now kinds operands }
{
    let mut ks = [0u8; MOST_ITEMS];
    let mut xs = [0u32; MOST_ITEMS];
    let n = recover(order, image, base, &mut ks, &mut xs)?;
    judge_arrays(n, kinds, operands)
}

// An unpacking with working arrays lent: ks for the kinds and xs for the operands.
fn unpack_in(
    order: u8,
    image: &[u8],
    base: Address,
    ks: &mut [u8],
    xs: &mut [u32],
    kinds: &mut [u8],
    operands: &mut [u32],
) -> Result<u32, Refusal>
    requires { (length ks.old ≡ 4096) × (length xs.old ≡ 4096) }
    ensures { answers.unpacked_to kinds.new operands.new result ≡ answers.unpack_of order image.now base.0 kinds.old operands.old }
{
    let n = recover(order, image, base, ks, xs)?;
    let m = n as usize;
    write_listing(&ks[0..m], &xs[0..m], kinds, operands)?;
    Ok(n)
}

pub fn unpack(
    order: u8,
    image: &[u8],
    base: Address,
    kinds: &mut [u8],
    operands: &mut [u32],
) -> Result<u32, Refusal>
    ensures { answers.unpacked_to kinds.new operands.new result ≡ answers.unpack_of order image.now base.0 kinds.old operands.old }
{
    let mut ks = [0u8; MOST_ITEMS];
    let mut xs = [0u32; MOST_ITEMS];
    unpack_in(order, image, base, &mut ks, &mut xs, kinds, operands)
}
