// What is told of an unpacking.
ghost use Rattle.std.specs.Prelude.{◌≡◌, ◌≤◌, length};
ghost use Rattle.calls.specs.Modules as modules;
ghost use Rattle.unpack_calls.specs.Images as images;

use calls::notes::note_count;
use cell::Refusal;

pub fn note_unpacked(answer: Result<u32, Refusal>, out: &mut [u32]) -> u32
    requires { 1 ≤ length out.old }
    ensures { modules.noted out.new result ≡ images.unpack_noted out.old answer }
{
    note_count(answer, out)
}
