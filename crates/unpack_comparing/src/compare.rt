// A listing packed again and held against an image.
ghost use Rattle.std.specs.Prelude.{◌≡◌, length};
ghost use Rattle.cell.specs.Refusals.{passed};
ghost use Rattle.pack_layout.specs.Listing.{listed};
ghost use Rattle.pack_layout.specs.Unpacking.{packs_to};
ghost use Rattle.unpack_judging.specs.Judgement as judgement;

use cell::Address;
use packer::pack::pack;

// Whether a listing in two arrays packs to an image whose place is passed; copy, as long as the image, is where it is packed.
pub fn packs_to(
    order: u8,
    base: Address,
    kinds: &[u8],
    operands: &[u32],
    image: &[u8],
    copy: &mut [u8],
) -> bool
    requires operands_len { (length operands.now ≡ length kinds.now) × (length copy.old ≡ length image.now) }
    requires image_value { judgement.judge_place order base.0 (length image.now) ≡ passed }
    ensures { result ≡ packs_to order base.0 (listed kinds.now operands.now) image.now }
{
    let Ok(cells) = pack(order, kinds, operands, base, copy) else {
        return false;
    };
    4 * (cells.0 as usize) == image.len() && *copy == *image
}
