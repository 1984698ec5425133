// What programs print: a cell in digits, the cells of an image, one a line, or a refusal's number.
#![tactic(auto)]

ghost use Rattle.std.specs.Prelude.{◌*◌, ◌≤◌, length};
ghost use Rattle.packer.specs.Pack.{pack_count};

use cell::memory::load_at;
use cell::{CellCount, Refusal};
use std::io;

// A cell, eight capital digits.
pub fn print_digits(rt: &impl Print, x: u32) -> io::Result<()> {
    print!(rt; "{x:08X}")
}

// A cell on a line of its own.
fn print_cell(rt: &impl Print, x: u32) -> io::Result<()> {
    print_digits(rt, x)?;
    println!(rt)
}

// The first cells of an output in order 0.
fn print_cells(rt: &impl Print, output: &[u8], count: CellCount) -> io::Result<()>
    requires { 4 * count.0 ≤ length output.now }
{
    for i in 0..count.0 as usize {
        print_cell(rt, load_at(0, output, 4 * i))?;
    }
    Ok(())
}

// A refusal's number, a cell that is negative.
pub fn print_number(rt: &impl Print, x: u32) -> io::Result<()> {
    print!(rt; "-{}", 0x100000000 - u64::from(x))
}

// What a packing in order 0 answered and left.
pub fn print_packed(
    rt: &impl Print,
    answer: Result<CellCount, Refusal>,
    output: &[u8],
) -> io::Result<()>
    requires { 4 * pack_count answer ≤ length output.now }
{
    match answer {
        Ok(cells) => print_cells(rt, output, cells),
        Err(refusal) => {
            print_number(rt, u32::from(refusal))?;
            println!(rt)
        }
    }
}
