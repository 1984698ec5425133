// The arms of opcodes 42h to FFh, the last of those that `dispatch` tells of. The loops stand apart, see `looping`.
#![tactic(auto)]

pub mod from_42;
pub mod looping;
