// Whether the stores of a shape meet a range of bytes.
#![tactic(auto, using(crate::proofs::WritesLaws::rolled_touches), unfolding(machine::specs::Commits::touches))]

ghost use Rattle.std.specs.Prelude.{◌≡◌, ◌&&◌, ◌+◌, ◌*◌, ◌<◌, ltb};
ghost use Rattle.machine.specs.Commits as commits;
ghost use Rattle.list_shapes.specs.Shapes as shapes;

use crate::Shape;
use cell::{Address, CellCount};
use machine::{Machine, Write};

// Whether `width` bytes from `at` on have one from lo up to, and without, hi.
pub fn meets(at: Address, width: u64, lo: Address, hi: Address) -> bool
    requires { width < 0x800000000 }
    ensures { result ≡ (ltb at.0 hi.0 && ltb lo.0 (at.0 + width)) }
{
    at.0 < hi.0 && (lo.0 as u64) < at.0 as u64 + width
}

fn meets_write(w: Write, lo: Address, hi: Address) -> bool
    ensures { result ≡ (ltb w.at.0 hi.0 && ltb lo.0 (w.at.0 + 4)) }
{
    meets(w.at, 4, lo, hi)
}

fn meets_roll(top: Address, depth: CellCount, lo: Address, hi: Address) -> bool
    ensures { result ≡ (ltb 0 depth.0 && (ltb top.0 hi.0 && ltb lo.0 (top.0 + (4 * depth.0 + 4)))) }
{
    0 < depth.0 && meets(top, 4 * (depth.0 as u64) + 4, lo, hi)
}

// Whether a shape would write a byte from lo up to, and without, hi.
pub fn writes(machine: Machine, memory: &[u8], shape: Shape, lo: Address, hi: Address) -> bool
    requires { lo.0 < hi.0 }
    ensures { result ≡ commits.touches lo.0 hi.0 (shapes.shape_stores machine.order memory.now shape) }
{
    match shape {
        Shape::One(None) => false,
        Shape::One(Some(s)) => meets_write(s.write, lo, hi),
        Shape::Two(s) => meets_write(s.first, lo, hi) || meets_write(s.second, lo, hi),
        Shape::TwoReturns(s) => meets_write(s.first, lo, hi) || meets_write(s.second, lo, hi),
        Shape::Three(s) => {
            meets_write(s.first, lo, hi)
                || meets_write(s.second, lo, hi)
                || meets_write(s.third, lo, hi)
        }
        Shape::Byte(s) => meets(s.at, 1, lo, hi),
        Shape::Roll(s) => meets_roll(s.top, s.depth, lo, hi),
    }
}
