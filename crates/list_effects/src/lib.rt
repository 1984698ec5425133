// What an instruction would do, as a value: found by reading alone, so that it can be judged before anything is written.
#![tactic(auto)]

pub mod from_01;
pub mod from_16;
pub mod from_2c;
pub mod from_46;
pub mod looping;
pub mod taking;
