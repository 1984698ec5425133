// What a batch reports, and its counting.
#![tactic(auto)]

pub mod tallying;

// The figures of some runs: how many there are, how many stopped with 0, with -258, with -259 and with any other reason, how many were spent, the cycles
// of all of them, and the most that one of them had.
#[derive(Clone, Copy)]
pub struct Tally {
    pub forms: u32,
    pub zeros: u32,
    pub stacks: u32,
    pub handlers: u32,
    pub others: u32,
    pub spent: u32,
    pub cycles: u64,
    pub largest: u32,
}

// The cycles divided by the forms.
#[derive(Clone, Copy)]
pub struct Mean {
    pub quotient: u32,
    pub remainder: u32,
}

#[derive(Clone, Copy)]
pub struct Report {
    pub tally: Tally,
    pub mean: Mean,
}
