// The processor: cycle and run.
#![tactic(auto)]

pub mod entry;

use areas::RegisterFile;
use machine::Exception;

// What a cycle answers, where it is not refused. A refusal stands for the registers as given.
#[derive(Clone, Copy)]
pub enum Cycled {
    Went(RegisterFile),
    Threw(RegisterFile, Exception),
    Stopped(RegisterFile, u32),
}

// What a run answers, where it is not refused: the registers, and for a stop the reason and the cycles done.
#[derive(Clone, Copy)]
pub enum Ran {
    Spent(RegisterFile),
    Stopped(RegisterFile, u32, u32),
}
