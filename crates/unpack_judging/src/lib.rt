// What refuses an unpacking by its numbers alone.
#![tactic(auto)]

pub mod judgement;
