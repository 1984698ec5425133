// Sets of modules.
ghost use Rattle.std.specs.Prelude.{◌≡◌};
ghost use Rattle.calls.specs.Modules.{moved};
ghost use Rattle.calls.specs.Sets as sets;

use set_calls::call_load_set;

#[unsafe(no_mangle)]
pub extern "C" fn beetle_load_set(
    order: u8,
    memory: &mut [u8],
    buffer: &[u8],
    modules: &[u32],
    out: &mut [u32],
) -> u32
    ensures { moved memory.new out.new result ≡ sets.load_set_call order memory.old buffer.now modules.now out.old }
{
    call_load_set(order, memory, buffer, modules, out)
}
