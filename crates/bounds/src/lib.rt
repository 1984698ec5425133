// The machine that stack areas and a table bound, and the judgement of all that bounds it.
#![tactic(auto)]

pub mod bounding;
pub mod judging;
