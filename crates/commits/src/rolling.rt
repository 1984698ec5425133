// ROLL: its places judged, its cells moved.
#![tactic(auto, using(crate::proofs::RollLaws::rolled_room), unfolding(machine::specs::Commits::commit_of, machine::specs::Commits::places_of))]

ghost use Rattle.std.specs.Prelude.{◌≡◌, ◌+◌, ◌*◌, ◌<◌, ◌≤◌, ◌^◌, length};
ghost use Rattle.machine.specs.Places as places;
ghost use Rattle.machine.specs.Effects as effects;
ghost use Rattle.machine.specs.Commits as commits;

use crate::stores::Stores;
use cell::memory::{load, store};
use cell::place::address_at;
use cell::{Address, CellCount, Fault};
use machine::places::check_data_write;
use machine::{Machine, RollStores};

// The places that ROLL writes, deepest first: the first bad one.
pub fn check_roll(
    machine: Machine,
    memory: &[u8],
    top: Address,
    depth: CellCount,
) -> Result<(), Fault>
    requires depth_bound { top.0 + 4 * depth.0 < 2 ^ 32 }
    requires fits { places.Fits machine (length memory.now) }
    ensures { result ≡ commits.places_of machine (length memory.now) (effects.rolled machine.order memory.now top.0 depth.0) }
{
    if depth.0 == 0 {
        return Ok(());
    }
    for k in (0..depth.0).rev() {
        check_data_write(machine, memory.len(), address_at(top, CellCount(k + 1)))?;
    }
    check_data_write(machine, memory.len(), top)
}

// Each of the `depth` items below the top one moves into the cell below it, and the lowest comes to the top.
fn roll_cells(machine: Machine, memory: &mut [u8], top: Address, depth: CellCount)
    requires depth_bound { top.0 + 4 * depth.0 < 2 ^ 32 }
    requires depth_in_bounds { 0 < depth.0 → top.0 + 4 * depth.0 + 4 ≤ length memory.old }
    ensures { memory.new ≡ commits.stored_of machine memory.old (effects.rolled machine.order memory.old top.0 depth.0) }
{
    if depth.0 == 0 {
        return;
    }
    let last = load(machine.order, memory, address_at(top, depth));
    for k in (0..depth.0).rev() {
        let x = load(machine.order, memory, address_at(top, CellCount(k)));
        store(machine.order, memory, address_at(top, CellCount(k + 1)), x);
    }
    store(machine.order, memory, top, last)
}

impl Stores for RollStores {
    ghost listed = { λ order m. effects.rolled_stores order m };

    fn check(self, machine: Machine, memory: &[u8]) -> Result<(), Fault> {
        check_roll(machine, memory, self.top, self.depth)
    }

    fn write(self, machine: Machine, memory: &mut [u8]) {
        roll_cells(machine, memory, self.top, self.depth)
    }
}
