// Stores of two cells or three.
#![tactic(auto, using(machine::proofs::CommitLaws::first_good, machine::proofs::CommitLaws::room_place), unfolding(machine::specs::Commits::places_of, machine::specs::Commits::stored_of))]

ghost use Rattle.machine.specs.Effects as effects;

use crate::stores::{Stores, put};
use cell::Fault;
use machine::places::{check_data_write, check_return_write};
use machine::{Machine, ThreeStores, TwoReturns, TwoStores};

impl Stores for TwoStores {
    ghost listed = { λ order m. effects.two_stores };

    fn check(self, machine: Machine, memory: &[u8]) -> Result<(), Fault> {
        check_data_write(machine, memory.len(), self.first.at)?;
        check_data_write(machine, memory.len(), self.second.at)
    }

    fn write(self, machine: Machine, memory: &mut [u8]) {
        put(machine, memory, self.first);
        put(machine, memory, self.second);
    }
}

impl Stores for TwoReturns {
    ghost listed = { λ order m. effects.two_returns };

    fn check(self, machine: Machine, memory: &[u8]) -> Result<(), Fault> {
        check_return_write(machine, memory.len(), self.first.at)?;
        check_return_write(machine, memory.len(), self.second.at)
    }

    fn write(self, machine: Machine, memory: &mut [u8]) {
        put(machine, memory, self.first);
        put(machine, memory, self.second);
    }
}

impl Stores for ThreeStores {
    ghost listed = { λ order m. effects.three_stores };

    fn check(self, machine: Machine, memory: &[u8]) -> Result<(), Fault> {
        check_data_write(machine, memory.len(), self.first.at)?;
        check_data_write(machine, memory.len(), self.second.at)?;
        check_data_write(machine, memory.len(), self.third.at)
    }

    fn write(self, machine: Machine, memory: &mut [u8]) {
        put(machine, memory, self.first);
        put(machine, memory, self.second);
        put(machine, memory, self.third);
    }
}
