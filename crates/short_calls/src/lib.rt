// What the calls for short listing files tell in the arrays that were lent.
#![tactic(auto)]

pub mod notes;
