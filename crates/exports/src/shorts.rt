// Short listing files.
ghost use Rattle.std.specs.Prelude.{◌≡◌};
ghost use Rattle.calls.specs.Modules as modules;
ghost use Rattle.short_calls.specs.Shorts as shorts;

use calls::notes::note_packed;
use lengthening::{judge_lengthen, lengthen};
use lent_arrays::lending::no_place;
use short_calls::notes::note_converted;
use short_packing::pack::{judge_pack_short, pack_short};
use shortening::{judge_shorten, shorten};

#[unsafe(no_mangle)]
pub extern "C" fn beetle_shorten(file: &[u8], output: &mut [u8], out: &mut [u32]) -> u32
    ensures { modules.moved output.new out.new result ≡ shorts.shorten_call file.now output.old out.old }
{
    if out.len() < 1 {
        return no_place(judge_shorten(file, output.len()));
    }
    note_converted(shorten(file, output), out)
}

#[unsafe(no_mangle)]
pub extern "C" fn beetle_lengthen(file: &[u8], output: &mut [u8], out: &mut [u32]) -> u32
    ensures { modules.moved output.new out.new result ≡ shorts.lengthen_call file.now output.old out.old }
{
    if out.len() < 1 {
        return no_place(judge_lengthen(file, output.len()));
    }
    note_converted(lengthen(file, output), out)
}

#[unsafe(no_mangle)]
pub extern "C" fn beetle_pack_short(
    order: u8,
    file: &[u8],
    output: &mut [u8],
    out: &mut [u32],
) -> u32
    ensures { modules.moved output.new out.new result ≡ shorts.pack_short_call order file.now output.old out.old }
{
    if out.len() < 1 {
        return no_place(judge_pack_short(order, file, output.len()));
    }
    note_packed(pack_short(order, file, output), out)
}
