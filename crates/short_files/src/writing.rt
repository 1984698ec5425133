// What is put into an output.
ghost use Rattle.std.specs.Prelude.{◌≡◌, ◌+◌, ◌*◌, ◌≤◌, length};
ghost use Rattle.cell.specs.Choice.{if};
ghost use Rattle.cell.specs.Memory.{store_cell};
ghost use Rattle.pack_layout.specs.Flags.{bit};
ghost use Rattle.short_judging.specs.Operands.{has_operand};

use cell::memory::store_at;
use pack_layout::Class;

// A number at a position, least significant byte first.
pub fn put(output: &mut [u8], at: usize, x: u32)
    requires { at + 4 ≤ length output.old }
    ensures { output.new ≡ store_cell 0 output.old at x }
{
    store_at(0, output, at, x)
}

// The operand of an item of this class, where a short file has one.
pub fn put_kept(output: &mut [u8], c: Class, at: usize, x: u32)
    requires { at + 4 * bit (has_operand c) ≤ length output.old }
    ensures { output.new ≡ if (has_operand c) (store_cell 0 output.old at x) output.old }
{
    match c {
        Class::Plain => {}
        Class::Literal => put(output, at, x),
        Class::Branch => put(output, at, x),
        Class::NoKind => {}
    }
}
