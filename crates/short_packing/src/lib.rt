// Short listing files, packed.
#![tactic(auto)]

pub mod pack;
