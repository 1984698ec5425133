// Counting loops.
#![tactic(auto)]

ghost use Rattle.std.specs.Prelude.{◌≡◌, ℕ, ◌<◌, ◌^◌};
ghost use Rattle.cell.specs.Number as number;
ghost use Rattle.counting.specs.Counting as counting;

use cell::number::subtract;

// Whether (+LOOP) by n, to the index `next`, ends. It has gone over the border if it is now less than its own step behind it.
pub fn plus_ends(next: u32, limit: u32, n: u32) -> bool
    ensures { (index : ℕ) → index < 2 ^ 32 → next ≡ number.sum index n → result ≡ counting.plus_ends index limit n }
{
    let behind = subtract(next, limit);
    if n < 0x80000000 {
        behind < n
    } else {
        n <= behind
    }
}
