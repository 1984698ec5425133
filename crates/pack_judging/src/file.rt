// Listings as files.
ghost use Rattle.std.specs.Prelude.{◌≡◌, ◌+◌, ◌*◌, ◌≤◌, length};
ghost use Rattle.pack_layout.specs.File.{least_first, cells_from, judged_length};

use cell::Refusal;
use cell::memory::load_at;

// The cell in the four bytes from a on, least first.
pub fn cell_at(file: &[u8], a: usize) -> u32
    requires { a + 4 ≤ length file.now }
    ensures { result ≡ least_first file.now a }
{
    load_at(0, file, a)
}

// The length of a file against its count of items.
pub fn judge_length(file: &[u8]) -> Result<(), Refusal>
    ensures { result ≡ judged_length file.now }
{
    let n = file.len();
    if n < 8 || n != 8 + 5 * (cell_at(file, 0) as usize) {
        return Err(Refusal::ItemCount);
    }
    Ok(())
}

// Reads the operands from the byte a on.
#[tactic(auto, using(crate::proofs::Reading::all_read))]
pub fn read_operands(file: &[u8], a: usize, operands: &mut [u32])
    requires { (length operands.old ≤ 4096) × (a + 4 * length operands.old ≤ length file.now) }
    ensures { operands.new ≡ cells_from file.now a (length operands.old) }
{
    for i in 0..operands.len() {
        operands[i] = cell_at(file, a + 4 * i);
    }
}
