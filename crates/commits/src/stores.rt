// Stores, and those of none or one: no store, a cell, a cell or none, a byte.
#![tactic(auto, using(machine::proofs::CommitLaws::first_good, machine::proofs::CommitLaws::room_place, machine::proofs::CommitLaws::room_byte), unfolding(machine::specs::Commits::places_of, machine::specs::Commits::stored_of))]

ghost use Rattle.std.specs.Prelude.{◌≡◌, ℕ, List, ◌+◌, ◌≤◌, length};
ghost use Rattle.cell.specs.Memory as mem;
ghost use Rattle.cell.specs.Place.{good};
ghost use Rattle.machine.specs.Places as places;
ghost use Rattle.machine.specs.Effects as effects;
ghost use Rattle.machine.specs.Commits as commits;

use cell::Fault;
use cell::memory::store;
use machine::places::{check_byte_write, check_target};
use machine::{ByteStore, CellStore, Machine, Write};

// The stores of a request.
pub trait Stores: Copy {
    // what they stand for, in a byte order and with the memory as it is before them
    ghost listed: { ℕ → List ℕ → Self → List effects.Store };

    // Every place in order, up to the first bad one.
    fn check(self, machine: Machine, memory: &[u8]) -> Result<(), Fault>
        requires { places.Fits machine (length memory.now) }
        ensures { result ≡ commits.places_of machine (length memory.now) (listed machine.order memory.now self) };

    // Every store made, in order.
    fn write(self, machine: Machine, memory: &mut [u8])
        requires fits { places.Fits machine (length memory.old) }
        requires checked { commits.places_of machine (length memory.old) (listed machine.order memory.old self) ≡ good }
        ensures { memory.new ≡ commits.stored_of machine memory.old (listed machine.order memory.old self) };
}

// One cell written.
pub fn put(machine: Machine, memory: &mut [u8], w: Write)
    requires { w.at.0 + 4 ≤ length memory.old }
    ensures { memory.new ≡ mem.store_cell machine.order memory.old w.at.0 w.value }
{
    store(machine.order, memory, w.at, w.value)
}

impl Stores for () {
    ghost listed = { λ order m. effects.no_store };

    fn check(self, _machine: Machine, _memory: &[u8]) -> Result<(), Fault> {
        Ok(())
    }

    fn write(self, _machine: Machine, _memory: &mut [u8]) {}
}

impl Stores for CellStore {
    ghost listed = { λ order m. effects.one_store };

    fn check(self, machine: Machine, memory: &[u8]) -> Result<(), Fault> {
        check_target(machine, self.target, memory.len(), self.write.at)
    }

    fn write(self, machine: Machine, memory: &mut [u8]) {
        put(machine, memory, self.write)
    }
}

impl Stores for Option<CellStore> {
    ghost listed = { λ order m. effects.maybe_store };

    fn check(self, machine: Machine, memory: &[u8]) -> Result<(), Fault> {
        match self {
            Some(s) => s.check(machine, memory),
            None => Ok(()),
        }
    }

    fn write(self, machine: Machine, memory: &mut [u8]) {
        if let Some(s) = self {
            s.write(machine, memory);
        }
    }
}

impl Stores for ByteStore {
    ghost listed = { λ order m. effects.byte_store };

    fn check(self, machine: Machine, memory: &[u8]) -> Result<(), Fault> {
        check_byte_write(machine, memory.len(), self.at)
    }

    fn write(self, _machine: Machine, memory: &mut [u8]) {
        memory[self.at.0 as usize] = (self.value % 256) as u8;
    }
}
