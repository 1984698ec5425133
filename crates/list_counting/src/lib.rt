// What an item and a run of the list machine come to, and what they count.
#![tactic(auto)]

pub mod answers;
pub mod tallying;

use list_machine::Outside;
use list_proposing::Stand;

// What an item comes to: in front of the next, stopped by a reason, or not carried out.
#[derive(Clone, Copy)]
pub enum Carried {
    On(Stand),
    Stopped(Stand, u32),
    Outside(Outside),
}

// How a run stands.
#[derive(Clone, Copy)]
pub enum Ending {
    GoesOn,
    Stopped(u32),
    Outside(Outside),
}

// A run: where it stands, the items carried out, the cycles counted.
#[derive(Clone, Copy)]
pub struct ItemRun {
    pub stand: Stand,
    pub items: u32,
    pub cycles: u64,
    pub ending: Ending,
}
