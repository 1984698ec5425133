// The three divisions. Each requires that the divisor is not 0: an instruction raises -10 first.
#![tactic(auto, using(crate::proofs::NumberLaws::magnitude_pos), unfolding(crate::specs::Division::symmetric_of, crate::specs::Division::floored_of))]

ghost use Rattle.std.specs.Prelude.{◌≡◌, ◌<◌};
ghost use Rattle.cell.specs.Division as division;

use crate::Quotient;
use crate::number::{add, magnitude, negate, subtract};

pub fn divide_unsigned(a: u32, b: u32) -> Quotient
    requires { 0 < b }
    ensures { result ≡ division.unsigned_of a b }
{
    Quotient {
        quotient: a / b,
        remainder: a % b,
    }
}

// Whether the signs of two cells differ.
pub fn is_apart(a: u32, b: u32) -> bool
    ensures { result ≡ division.apart a b }
{
    if 0x80000000 <= a {
        b < 0x80000000
    } else {
        0x80000000 <= b
    }
}

pub fn with_sign(negative: bool, n: u32) -> u32
    ensures { result ≡ division.signed negative n }
{
    if negative { negate(n) } else { n }
}

pub fn divide_symmetric(a: u32, b: u32) -> Quotient
    requires { 0 < b }
    ensures { result ≡ division.symmetric_of a b }
{
    let p = magnitude(a);
    let q = magnitude(b);
    Quotient {
        quotient: with_sign(is_apart(a, b), p / q),
        remainder: with_sign(0x80000000 <= a, p % q),
    }
}

pub fn divide_floored(a: u32, b: u32) -> Quotient
    requires { 0 < b }
    ensures { result ≡ division.floored_of a b }
{
    let s = divide_symmetric(a, b);
    if s.remainder == 0 {
        return s;
    }
    if is_apart(a, b) {
        return Quotient {
            quotient: subtract(s.quotient, 1),
            remainder: add(s.remainder, b),
        };
    }
    s
}
