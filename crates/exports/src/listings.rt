// The calls for listings.
ghost use Rattle.std.specs.Prelude.{◌≡◌};
ghost use Rattle.calls.specs.Modules as modules;
ghost use Rattle.calls.specs.Listings as listings;

use pack_calls::{call_pack, call_pack_file};

#[unsafe(no_mangle)]
pub extern "C" fn beetle_pack(
    order: u8,
    kinds: &[u8],
    operands: &[u32],
    base: u32,
    output: &mut [u8],
    out: &mut [u32],
) -> u32
    ensures { modules.moved output.new out.new result ≡ listings.pack_call order kinds.now operands.now base output.old out.old }
{
    call_pack(order, kinds, operands, base, output, out)
}

#[unsafe(no_mangle)]
pub extern "C" fn beetle_pack_file(
    order: u8,
    file: &[u8],
    output: &mut [u8],
    out: &mut [u32],
) -> u32
    ensures { modules.moved output.new out.new result ≡ listings.pack_file_call order file.now output.old out.old }
{
    call_pack_file(order, file, output, out)
}
