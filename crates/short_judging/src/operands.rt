// Which items of a short file have an operand, and where it stands.
ghost use Rattle.std.specs.Prelude.{◌≡◌, ◌+◌, ◌*◌, ◌≤◌, length};
ghost use Rattle.cell.specs.Choice.{if};
ghost use Rattle.pack_layout.specs.Flags.{bit};
ghost use Rattle.pack_layout.specs.File.{least_first};
ghost use Rattle.short_judging.specs.Operands.{has_operand};

use pack_judging::file::cell_at;
use pack_layout::Class;

// 1 where an item of this class has an operand, else 0.
pub fn operands_of(c: Class) -> u32
    ensures { result ≡ bit (has_operand c) }
{
    match c {
        Class::Plain => 0,
        Class::Literal => 1,
        Class::Branch => 1,
        Class::NoKind => 0,
    }
}

// The operand of an item of this class, if it has one, stands at a position of the file.
pub fn operand_at(file: &[u8], c: Class, at: usize) -> u32
    requires { at + 4 * bit (has_operand c) ≤ length file.now }
    ensures { result ≡ if (has_operand c) (least_first file.now at) 0 }
{
    match c {
        Class::Plain => 0,
        Class::Literal => cell_at(file, at),
        Class::Branch => cell_at(file, at),
        Class::NoKind => 0,
    }
}
