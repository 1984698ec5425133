// The place of a cell and its check.
ghost use Rattle.std.specs.Prelude.{◌≡◌, ◌+◌, ◌*◌, ◌^◌, ◌<◌};
ghost use Rattle.cell.specs.Place as place;

use crate::{Address, CellCount, Fault};

// The address of the cell that stands `index` cells behind a base.
pub fn address_at(base: Address, index: CellCount) -> Address
    requires { base.0 + 4 * index.0 < 2 ^ 32 }
    ensures { result ≡ place.address (base.0 + 4 * index.0) }
{
    Address(base.0 + 4 * index.0)
}

pub fn check_byte(length: usize, address: Address) -> Result<(), Fault>
    ensures { result ≡ place.check_byte length address.0 }
{
    if (address.0 as usize) < length {
        Ok(())
    } else {
        Err(Fault::Range(address))
    }
}

// One comparison finds a good place: the address, rotated right by two bits, is the number of its cell, or past every number if it is not aligned.
pub fn check_cell(length: usize, address: Address) -> Result<(), Fault>
    ensures { result ≡ place.check_cell length address.0 }
{
    let a = address.0 as usize;
    let cells = length / 4 + (length % 4 + 3) / 4;
    if a / 4 + a % 4 * 0x4000000000000000 < cells {
        return Ok(());
    }
    if a < length {
        return Err(Fault::Alignment(address));
    }
    Err(Fault::Range(address))
}
