// The calls from C for listings. Each judges first, and writes nothing that was lent where it refuses.
#![tactic(auto, using(lent_arrays::proofs::LendingLaws::roomy), unfolding(calls::specs::Listings::pack_call, calls::specs::Listings::pack_file_call))]

ghost use Rattle.std.specs.Prelude.{◌≡◌};
ghost use Rattle.calls.specs.Modules as modules;
ghost use Rattle.calls.specs.Listings as listings;

use calls::notes::note_packed;
use cell::Address;
use lent_arrays::lending::with_room;
use pack_files::file::{judge_pack_file, pack_file};
use pack_refusals::judgement::judge_pack;
use packer::pack::pack;

pub fn call_pack(
    order: u8,
    kinds: &[u8],
    operands: &[u32],
    base: u32,
    output: &mut [u8],
    out: &mut [u32],
) -> u32
    ensures { modules.moved output.new out.new result ≡ listings.pack_call order kinds.now operands.now base output.old out.old }
{
    let judged = judge_pack(order, kinds, operands, Address(base), output.len());
    match with_room(judged, out.len(), 1) {
        Err(r) => u32::from(r),
        Ok(()) => note_packed(pack(order, kinds, operands, Address(base), output), out),
    }
}

pub fn call_pack_file(order: u8, file: &[u8], output: &mut [u8], out: &mut [u32]) -> u32
    ensures { modules.moved output.new out.new result ≡ listings.pack_file_call order file.now output.old out.old }
{
    let judged = judge_pack_file(order, file, output.len());
    match with_room(judged, out.len(), 1) {
        Err(r) => u32::from(r),
        Ok(()) => note_packed(pack_file(order, file, output), out),
    }
}
