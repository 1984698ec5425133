// What the calls tell in `out`.
ghost use Rattle.std.specs.Prelude.{◌≡◌, ◌≤◌, length};
ghost use Rattle.calls.specs.Modules as modules;
ghost use Rattle.calls.specs.Listings as listings;

use cell::judgement::answer_number;
use cell::{CellCount, Refusal};
use lent_arrays::lending::write_one;

// The count that an answer gives. A refusal leaves `out`; it comes here from a call alone that has not judged before it asks for the answer.
pub fn note_count(answer: Result<u32, Refusal>, out: &mut [u32]) -> u32
    requires { 1 ≤ length out.old }
    ensures { modules.noted out.new result ≡ modules.save_noted out.old answer }
{
    if let Ok(n) = answer {
        write_one(out, n);
    }
    answer_number(answer)
}

// The same of a number of cells.
pub fn note_cells(answer: Result<CellCount, Refusal>, out: &mut [u32]) -> u32
    requires { 1 ≤ length out.old }
    ensures { modules.noted out.new result ≡ modules.load_noted out.old answer }
{
    note_count(answer.map(|l| l.0), out)
}

// The same of a packing.
pub fn note_packed(answer: Result<CellCount, Refusal>, out: &mut [u32]) -> u32
    requires { 1 ≤ length out.old }
    ensures { modules.noted out.new result ≡ listings.pack_noted out.old answer }
{
    note_cells(answer, out)
}
