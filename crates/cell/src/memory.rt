// Cells in bytes. A cell is loaded and stored least byte first, and its bytes are reversed where the order is 1. In memory a cell has an address;
// in bytes that are no memory, as those of a file, it has a position.
#![tactic(auto, using(crate::proofs::BytesLaws::reverse_loaded, crate::proofs::BytesLaws::reverse_stored, crate::proofs::BytesLaws::reverse_other), unfolding(crate::specs::Memory::cell_at, crate::specs::Memory::store_cell))]

ghost use Rattle.std.specs.Prelude.{◌≡◌, ◌+◌, ◌≤◌, length};
ghost use Rattle.cell.specs.Memory as mem;

use crate::Address;

fn join(a: u8, b: u8, c: u8, d: u8) -> u32
    ensures { result ≡ mem.joined 0 a b c d }
{
    (a as u32) + (b as u32) * 256 + (c as u32) * 65536 + (d as u32) * 16777216
}

// The bytes of x in the other order, where the order is not 0.
fn reverse(order: u8, x: u32) -> u32
    ensures { result ≡ mem.joined order (mem.byte0 x) (mem.byte1 x) (mem.byte2 x) (mem.byte3 x) }
{
    if order == 0 {
        x
    } else {
        x % 256 * 16777216 + x / 256 % 256 * 65536 + x / 65536 % 256 * 256 + x / 16777216
    }
}

fn load_least(bytes: &[u8], at: usize) -> u32
    requires { at + 4 ≤ length bytes.now }
    ensures { result ≡ mem.cell_at 0 bytes.now at }
{
    join(bytes[at], bytes[at + 1], bytes[at + 2], bytes[at + 3])
}

// The cell at a position.
pub fn load_at(order: u8, bytes: &[u8], at: usize) -> u32
    requires { at + 4 ≤ length bytes.now }
    ensures { result ≡ mem.cell_at order bytes.now at }
{
    reverse(order, load_least(bytes, at))
}

// The cell at an address inside memory.
pub fn load(order: u8, memory: &[u8], at: Address) -> u32
    requires { at.0 + 4 ≤ length memory.now }
    ensures { result ≡ mem.cell_at order memory.now at.0 }
{
    load_at(order, memory, at.0 as usize)
}

fn store_least(bytes: &mut [u8], at: usize, x: u32)
    requires { at + 4 ≤ length bytes.old }
    ensures { bytes.new ≡ mem.store_cell 0 bytes.old at x }
{
    bytes[at] = (x % 256) as u8;
    bytes[at + 1] = (x / 256 % 256) as u8;
    bytes[at + 2] = (x / 65536 % 256) as u8;
    bytes[at + 3] = (x / 16777216) as u8;
}

// The bytes with x at a position.
pub fn store_at(order: u8, bytes: &mut [u8], at: usize, x: u32)
    requires { at + 4 ≤ length bytes.old }
    ensures { bytes.new ≡ mem.store_cell order bytes.old at x }
{
    store_least(bytes, at, reverse(order, x))
}

// Memory with x at an address inside it.
pub fn store(order: u8, memory: &mut [u8], at: Address, x: u32)
    requires { at.0 + 4 ≤ length memory.old }
    ensures { memory.new ≡ mem.store_cell order memory.old at.0 x }
{
    store_at(order, memory, at.0 as usize, x)
}
