// Lent arrays: reading, writing and judging them.
ghost use Rattle.std.specs.Prelude.{◌≡◌, [], ◌∷◌, ◌+◌, ◌≤◌, length};
ghost use Rattle.machine.specs.Places.{table_of};
ghost use Rattle.areas.specs.Areas.{areas_of};
ghost use Rattle.lent_arrays.specs.Lending as lending;

use areas::{Area, Areas, RegisterFile};
use cell::{Address, CellCount, Refusal};
use machine::{Registers, Table};

// A judgement so far, and then whether a lent array has room for what a success writes.
pub fn with_room(judged: Result<(), Refusal>, size: usize, needed: usize) -> Result<(), Refusal>
    ensures { result ≡ lending.with_room judged size needed }
{
    judged?;
    if size < needed {
        return Err(Refusal::ShortOutput);
    }
    Ok(())
}

// The number answered where `out` has no place.
pub fn no_place(judged: Result<(), Refusal>) -> u32
    ensures { result ≡ lending.no_place judged }
{
    u32::from(judged.err().unwrap_or(Refusal::ShortOutput))
}

// Areas of four numbers.
pub fn make_areas(data_top: u32, data_cells: u32, return_top: u32, return_cells: u32) -> Areas
    ensures { result ≡ areas_of data_top data_cells return_top return_cells }
{
    Areas {
        stack: Area {
            top: Address(data_top),
            cells: CellCount(data_cells),
        },
        returns: Area {
            top: Address(return_top),
            cells: CellCount(return_cells),
        },
    }
}

// A table of two numbers.
pub fn make_table(first: u32, end: u32) -> Table
    ensures { result ≡ table_of first end }
{
    Table {
        first: Address(first),
        end: Address(end),
    }
}

// The areas that stand in a lent array from a place on.
pub fn read_areas(lent: &[u32], at: usize) -> Areas
    requires { at + 4 ≤ length lent.now }
    ensures { result ≡ lending.areas_at at lent.now }
{
    make_areas(lent[at], lent[at + 1], lent[at + 2], lent[at + 3])
}

// The same for the judgement: none where the array is too short to hold them.
pub fn areas_in(lent: &[u32], at: usize) -> Areas
    requires { at ≤ 4 }
    ensures { result ≡ lending.areas_in at lent.now }
{
    if lent.len() < at + 4 {
        return make_areas(0, 0, 0, 0);
    }
    read_areas(lent, at)
}

pub fn read_registers(lent: &[u32]) -> RegisterFile
    requires { 8 ≤ length lent.now }
    ensures { result ≡ lending.registers_of lent.now }
{
    let areas = read_areas(lent, 4);
    RegisterFile {
        registers: Registers {
            ep: lent[0],
            a: lent[1],
            sp: lent[2],
            rp: lent[3],
        },
        areas: areas,
    }
}

// The first places of a lent array.
pub fn write_first(lent: &mut [u32], numbers: &[u32])
    requires { length numbers.now ≤ length lent.old }
    ensures { lent.new ≡ lending.written numbers.now lent.old }
{
    lent[..numbers.len()].copy_from_slice(numbers);
}

pub fn write_registers(lent: &mut [u32], f: RegisterFile)
    requires { 8 ≤ length lent.old }
    ensures { lent.new ≡ lending.written (lending.register_list f) lent.old }
{
    let r = f.registers;
    let stack = f.areas.stack;
    let returns = f.areas.returns;
    write_first(
        lent,
        &[
            r.ep,
            r.a,
            r.sp,
            r.rp,
            stack.top.0,
            stack.cells.0,
            returns.top.0,
            returns.cells.0,
        ],
    );
}

// SP and RP of the list machine, and its areas.
pub fn write_pointers(lent: &mut [u32], sp: u32, rp: u32, areas: Areas)
    requires { 6 ≤ length lent.old }
    ensures { lent.new ≡ lending.written (sp ∷ rp ∷ lending.area_list areas) lent.old }
{
    let stack = areas.stack;
    let returns = areas.returns;
    write_first(
        lent,
        &[
            sp,
            rp,
            stack.top.0,
            stack.cells.0,
            returns.top.0,
            returns.cells.0,
        ],
    );
}

pub fn write_one(lent: &mut [u32], x: u32)
    requires { 1 ≤ length lent.old }
    ensures { lent.new ≡ lending.written (x ∷ []) lent.old }
{
    write_first(lent, &[x]);
}

pub fn write_two(lent: &mut [u32], x: u32, y: u32)
    requires { 2 ≤ length lent.old }
    ensures { lent.new ≡ lending.written (x ∷ y ∷ []) lent.old }
{
    write_first(lent, &[x, y]);
}
