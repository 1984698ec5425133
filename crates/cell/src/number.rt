// The arithmetic of cells, modulo 2^32.
#![tactic(auto, using(crate::proofs::NumberLaws::halved_is, crate::proofs::NumberLaws::asr8_is), unfolding(crate::specs::Number::sum, crate::specs::Number::difference, crate::specs::Number::product, crate::specs::Number::negated, crate::specs::Number::less, crate::specs::Number::shifted_left, crate::specs::Number::shifted_right))]

ghost use Rattle.std.specs.Prelude.{◌≡◌};
ghost use Rattle.cell.specs.Shift as shift;
ghost use Rattle.cell.specs.Number as number;

pub fn add(a: u32, b: u32) -> u32
    ensures { result ≡ number.sum a b }
{
    a.wrapping_add(b)
}

pub fn subtract(a: u32, b: u32) -> u32
    ensures { result ≡ number.difference a b }
{
    a.wrapping_sub(b)
}

pub fn multiply(a: u32, b: u32) -> u32
    ensures { result ≡ number.product a b }
{
    a.wrapping_mul(b)
}

pub fn negate(a: u32) -> u32
    ensures { result ≡ number.negated a }
{
    a.wrapping_neg()
}

// The order of signed numbers.
pub fn is_less(a: u32, b: u32) -> bool
    ensures { result ≡ number.less a b }
{
    a.wrapping_add(0x80000000) < b.wrapping_add(0x80000000)
}

pub fn magnitude(a: u32) -> u32
    ensures { result ≡ number.magnitude a }
{
    if 0x80000000 <= a { negate(a) } else { a }
}

pub fn greater_of(a: u32, b: u32) -> u32
    ensures { result ≡ number.greater a b }
{
    if is_less(a, b) { b } else { a }
}

pub fn lesser_of(a: u32, b: u32) -> u32
    ensures { result ≡ number.lesser a b }
{
    if is_less(b, a) { b } else { a }
}

pub fn flag(t: bool) -> u32
    ensures { result ≡ number.flag t }
{
    if t { 0xFFFFFFFF } else { 0 }
}

pub fn shift_left(a: u32, u: u32) -> u32
    ensures { result ≡ number.shifted_left a u }
{
    if u < 32 { a << u } else { 0 }
}

pub fn shift_right(a: u32, u: u32) -> u32
    ensures { result ≡ number.shifted_right a u }
{
    if u < 32 { a >> u } else { 0 }
}

// 2/
pub fn halve(a: u32) -> u32
    ensures { result ≡ number.halved a }
{
    ((a / 2 + 0x40000000) % 0x80000000).wrapping_sub(0x40000000)
}

// A, one byte further.
pub fn shift_byte(a: u32) -> u32
    ensures { result ≡ shift.asr8 a }
{
    ((a / 256 + 0x800000) % 0x1000000).wrapping_sub(0x800000)
}

// The address of a byte for C@ and C!.
pub fn byte_address(order: u8, a: u32) -> u32
    ensures { result ≡ number.byte_address order a }
{
    if order == 0 { a } else { 3 ^ a }
}
