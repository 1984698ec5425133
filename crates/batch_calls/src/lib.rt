// The call for batches: what it judges beside, and what it tells.
#![tactic(auto)]

pub mod calling;
pub mod notes;
