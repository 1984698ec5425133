// Opcodes of an image.
ghost use Rattle.std.specs.Prelude.{◌≡◌, ◌<◌};
ghost use Rattle.pack_layout.specs.Kinds.{among, immediates};
ghost use Rattle.pack_layout.specs.Reading.{form_read, kind_read};

use pack_judging::kinds::class_of;
use pack_layout::{Class, ItemForm};

fn is_immediate(b: u8) -> bool
    ensures { result ≡ among b immediates }
{
    matches!(b, 0x43 | 0x45 | 0x49 | 0x4D | 0x4F | 0x53)
}

// How the item of an opcode is written.
pub fn form_read(b: u8) -> ItemForm
    ensures { result ≡ form_read b }
{
    if is_immediate(b) {
        return ItemForm::Immediate;
    }
    match class_of(b) {
        Class::Plain => ItemForm::Alone,
        Class::Literal => ItemForm::InCell,
        Class::Branch => ItemForm::InCell,
        Class::NoKind => ItemForm::Alone,
    }
}

// The kind of an opcode whose item is written in the form g.
pub fn kind_read(g: ItemForm, b: u8) -> u8
    ensures { result ≡ kind_read g b }
{
    match g {
        ItemForm::Alone => b,
        ItemForm::Immediate => {
            if b == 0 {
                return 0;
            }
            b - 1
        }
        ItemForm::InCell => b,
    }
}
