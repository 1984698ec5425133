// Kind bytes.
ghost use Rattle.std.specs.Prelude.{◌≡◌};
ghost use Rattle.pack_layout.specs.Kinds.{class_of};

use pack_layout::Class;

// The class of a kind byte.
#[tactic(auto, using(pack_layout::proofs::Classes::one_of, pack_layout::proofs::Classes::high_is_none, pack_layout::proofs::Classes::none_of, pack_layout::proofs::Classes::else_plain), unfolding(pack_layout::specs::Kinds::class_of))]
pub fn class_of(kind: u8) -> Class
    ensures { result ≡ class_of kind }
{
    if 0x57 < kind {
        return Class::NoKind;
    }
    match kind {
        0x52 => Class::Literal,
        0x42 | 0x44 | 0x48 | 0x4C | 0x4E => Class::Branch,
        0x43 | 0x45 | 0x49 | 0x4D | 0x4F | 0x53 => Class::NoKind,
        0x00 | 0x56 => Class::NoKind,
        _ => Class::Plain,
    }
}
