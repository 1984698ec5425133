// The processor: start.
#![tactic(auto)]

pub mod entry;

use areas::RegisterFile;

// What start answers, where it is not refused. A refusal stands for zero registers.
#[derive(Clone, Copy)]
pub enum Started {
    Ready(RegisterFile),
    Stopped(RegisterFile, u32),
}
