// The arms of opcodes 2Ch to 41h, see `dispatch`.
#![tactic(auto)]

pub mod from_2c;
