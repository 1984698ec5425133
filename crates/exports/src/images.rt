// Images.
ghost use Rattle.std.specs.Prelude.{◌≡◌};
ghost use Rattle.unpack_calls.specs.Images as images;

use cell::Address;
use lent_arrays::lending::no_place;
use unpack_calls::notes::note_unpacked;
use unpacker::unpack::{judge_unpack, unpack};

#[unsafe(no_mangle)]
pub extern "C" fn beetle_unpack(
    order: u8,
    image: &[u8],
    base: u32,
    kinds: &mut [u8],
    operands: &mut [u32],
    out: &mut [u32],
) -> u32
    ensures { images.listed kinds.new operands.new out.new result ≡ images.unpack_call order image.now base kinds.old operands.old out.old }
{
    if out.len() < 1 {
        return no_place(judge_unpack(order, image, Address(base), kinds.len(), operands.len()));
    }
    note_unpacked(unpack(order, image, Address(base), kinds, operands), out)
}
