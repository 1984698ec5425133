// What is told of a shortening or a lengthening.
ghost use Rattle.std.specs.Prelude.{◌≡◌, ◌≤◌, length};
ghost use Rattle.calls.specs.Modules as modules;
ghost use Rattle.short_calls.specs.Shorts as shorts;

use calls::notes::note_count;
use cell::Refusal;

pub fn note_converted(answer: Result<u32, Refusal>, out: &mut [u32]) -> u32
    requires { 1 ≤ length out.old }
    ensures { modules.noted out.new result ≡ shorts.convert_noted out.old answer }
{
    note_count(answer, out)
}
