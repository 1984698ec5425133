// The calls for object modules.
ghost use Rattle.std.specs.Prelude.{◌≡◌};
ghost use Rattle.calls.specs.Modules as modules;

use module_calls::{call_load_first, call_save};

#[unsafe(no_mangle)]
pub extern "C" fn beetle_load_first(
    order: u8,
    memory: &mut [u8],
    file: &[u8],
    address: u32,
    cells: u32,
    out: &mut [u32],
) -> u32
    ensures { modules.moved memory.new out.new result ≡ modules.load_first_call order memory.old file.now address cells out.old }
{
    call_load_first(order, memory, file, address, cells, out)
}

// With no halt: no file has more cells than a cell can count.
#[unsafe(no_mangle)]
pub extern "C" fn beetle_load(
    order: u8,
    memory: &mut [u8],
    file: &[u8],
    address: u32,
    out: &mut [u32],
) -> u32
    ensures { modules.moved memory.new out.new result ≡ modules.load_call order memory.old file.now address out.old }
{
    call_load_first(order, memory, file, address, 0xFFFFFFFF, out)
}

#[unsafe(no_mangle)]
pub extern "C" fn beetle_save(
    order: u8,
    memory: &[u8],
    address: u32,
    cells: u32,
    output: &mut [u8],
    out: &mut [u32],
) -> u32
    ensures { modules.moved output.new out.new result ≡ modules.save_call order memory.now address cells output.old out.old }
{
    call_save(order, memory, address, cells, output, out)
}
