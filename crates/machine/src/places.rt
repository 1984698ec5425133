// Places and fetches.
#![tactic(auto, using(crate::proofs::SpanLaws::rotated_within, crate::proofs::SpanLaws::guards_byte, crate::proofs::SpanLaws::open_read), unfolding(crate::specs::Places::place_of, crate::specs::Places::fetch_of, crate::specs::Places::fetch_byte_of))]

ghost use Rattle.std.specs.Prelude.{◌≡◌, ◌&&◌, ◌+◌, ◌*◌, ◌%◌, ◌≤◌, ◌^◌, eqb, length};
ghost use Rattle.cell.specs.Place.{good};
ghost use Rattle.machine.specs.Places as places;

use crate::{Access, Guarded, Machine, Span, Table, Target};
use cell::memory::load;
use cell::number::subtract;
use cell::place::{check_byte, check_cell};
use cell::{Address, CellCount, Fault};

// The bytes of a table, as they are asked for.
pub fn guard(table: Table) -> Guarded
    ensures { result ≡ places.guarded_of table }
{
    let first = table.first;
    let end = table.end;
    if end.0 < first.0 {
        return Guarded {
            first: first,
            bytes: 0,
        };
    }
    Guarded {
        first: first,
        bytes: end.0 - first.0,
    }
}

// The machine whose stacks may lie anywhere in memory, with no held cell.
pub fn unbounded(order: u8, table: Table, length: usize) -> Machine
    requires { (4 ≤ length) × (length ≤ 16777216) }
    ensures { result ≡ places.unbounded order table length }
{
    let cells = (length / 4) as u32;
    let last = (length - 4) as u32;
    Machine {
        order: order,
        stack: Span {
            last: Address(last),
            cells: CellCount(cells),
        },
        writes: CellCount(cells),
        returns: Span {
            last: Address(last),
            cells: CellCount(cells),
        },
        table: guard(table),
    }
}

// Whether an address is that of one of so many cells, the highest at `last`. One comparison finds it: the distance from the highest, rotated right by two
// bits, is the number of the cell, or past every number if the address is not aligned. Where a place is read and then written, both share the distance.
fn is_within(last: Address, cells: CellCount, address: Address) -> bool
    requires { (last.0 % 4 ≡ 0) × (4 * cells.0 ≤ last.0 + 4) }
    ensures { result ≡ (places.within (places.span_at last.0 cells.0) address.0 && eqb (address.0 % 4) 0) }
{
    subtract(last.0, address.0).rotate_right(2) < cells.0
}

// Whether a byte lies in the table.
fn is_guarded(table: Guarded, address: Address) -> bool
    requires { table.first.0 + table.bytes ≤ 2 ^ 32 }
    ensures { result ≡ places.in_table table address.0 }
{
    let first = table.first;
    subtract(address.0, first.0) < table.bytes
}

// The place of one of so many cells of a stack, the highest at `last`: `off` is its fault where it lies in memory, but is none of these.
fn check_within(
    last: Address,
    cells: CellCount,
    length: usize,
    address: Address,
    off: Fault,
) -> Result<(), Fault>
    requires in_bounds { (last.0 % 4 ≡ 0) × (4 * cells.0 ≤ last.0 + 4) × (last.0 + 4 ≤ length) }
    ensures { result ≡ places.placed (places.within (places.span_at last.0 cells.0) address.0 && eqb (address.0 % 4) 0) length address.0 off }
{
    if is_within(last, cells, address) {
        return Ok(());
    }
    if (address.0 as usize) < length {
        return Err(off);
    }
    Err(Fault::Range(address))
}

// A place that is written does not lie in the table.
fn check_open(machine: Machine, address: Address) -> Result<(), Fault>
    requires { machine.table.first.0 + machine.table.bytes ≤ 2 ^ 32 }
    ensures { result ≡ places.open_to good (places.table_allows machine Access.NamedWrite address.0) }
{
    if is_guarded(machine.table, address) {
        return Err(Fault::Table);
    }
    Ok(())
}

// A place that the data stack reads.
pub fn check_data(machine: Machine, length: usize, address: Address) -> Result<(), Fault>
    requires { places.Fits machine length }
    ensures { result ≡ places.place_of machine places.one_cell Access.DataRead length address.0 }
{
    let stack = machine.stack;
    check_within(
        stack.last,
        stack.cells,
        length,
        address,
        Fault::Data(address),
    )
}

// A place that the data stack writes: not the held cell, and not in the table.
pub fn check_data_write(machine: Machine, length: usize, address: Address) -> Result<(), Fault>
    requires { places.Fits machine length }
    ensures { result ≡ places.place_of machine places.one_cell Access.DataWrite length address.0 }
{
    let stack = machine.stack;
    check_within(
        stack.last,
        machine.writes,
        length,
        address,
        Fault::Data(address),
    )?;
    check_open(machine, address)
}

// The place of a throw's code: the held cell too, but not in the table.
pub fn check_push(machine: Machine, length: usize, address: Address) -> Result<(), Fault>
    requires { places.Fits machine length }
    ensures { result ≡ places.place_of machine places.one_cell Access.Push length address.0 }
{
    check_data(machine, length, address)?;
    check_open(machine, address)
}

// A place that the return stack reads.
pub fn check_return(machine: Machine, length: usize, address: Address) -> Result<(), Fault>
    requires { places.Fits machine length }
    ensures { result ≡ places.place_of machine places.one_cell Access.ReturnRead length address.0 }
{
    let returns = machine.returns;
    check_within(
        returns.last,
        returns.cells,
        length,
        address,
        Fault::Return(address),
    )
}

// A place that the return stack writes: not in the table.
pub fn check_return_write(machine: Machine, length: usize, address: Address) -> Result<(), Fault>
    requires { places.Fits machine length }
    ensures { result ≡ places.place_of machine places.one_cell Access.ReturnWrite length address.0 }
{
    check_return(machine, length, address)?;
    check_open(machine, address)
}

// A cell of the instruction stream, or one that an operand names, to be read.
pub fn check_named(machine: Machine, length: usize, address: Address) -> Result<(), Fault>
    ensures value { result ≡ places.place_of machine places.one_cell Access.Stream length address.0 }
    ensures value_2 { result ≡ places.place_of machine places.one_cell Access.NamedRead length address.0 }
{
    check_cell(length, address)
}

// A cell that an operand names, to be written: not in the table.
fn check_named_write(machine: Machine, length: usize, address: Address) -> Result<(), Fault>
    requires { places.Fits machine length }
    ensures { result ≡ places.place_of machine places.one_cell Access.NamedWrite length address.0 }
{
    check_cell(length, address)?;
    check_open(machine, address)
}

// The place of a store.
pub fn check_target(
    machine: Machine,
    target: Target,
    length: usize,
    address: Address,
) -> Result<(), Fault>
    requires { places.Fits machine length }
    ensures { result ≡ places.place_of machine places.one_cell (places.access_to target) length address.0 }
{
    match target {
        Target::Data => check_data_write(machine, length, address),
        Target::Return => check_return_write(machine, length, address),
        Target::Named => check_named_write(machine, length, address),
    }
}

// A byte to be written: not in the table.
pub fn check_byte_write(machine: Machine, length: usize, address: Address) -> Result<(), Fault>
    requires { places.Fits machine length }
    ensures { result ≡ places.place_of machine places.one_byte Access.NamedWrite length address.0 }
{
    check_byte(length, address)?;
    check_open(machine, address)
}

// A cell of the data stack.
pub fn fetch_data(machine: Machine, memory: &[u8], address: Address) -> Result<u32, Fault>
    requires { places.Fits machine (length memory.now) }
    ensures { result ≡ places.fetch_of machine Access.DataRead memory.now address.0 }
{
    check_data(machine, memory.len(), address)?;
    Ok(load(machine.order, memory, address))
}

// A cell of the return stack.
pub fn fetch_return(machine: Machine, memory: &[u8], address: Address) -> Result<u32, Fault>
    requires { places.Fits machine (length memory.now) }
    ensures { result ≡ places.fetch_of machine Access.ReturnRead memory.now address.0 }
{
    check_return(machine, memory.len(), address)?;
    Ok(load(machine.order, memory, address))
}

// A cell of the instruction stream, or one that an operand names.
pub fn fetch(machine: Machine, memory: &[u8], address: Address) -> Result<u32, Fault>
    requires { places.Fits machine (length memory.now) }
    ensures value { result ≡ places.fetch_of machine Access.Stream memory.now address.0 }
    ensures value_2 { result ≡ places.fetch_of machine Access.NamedRead memory.now address.0 }
{
    check_named(machine, memory.len(), address)?;
    Ok(load(machine.order, memory, address))
}

// A byte that an operand names.
pub fn fetch_byte(machine: Machine, memory: &[u8], address: Address) -> Result<u32, Fault>
    ensures { result ≡ places.fetch_byte_of machine Access.NamedRead memory.now address.0 }
{
    check_byte(memory.len(), address)?;
    Ok(memory[address.0 as usize] as u32)
}
