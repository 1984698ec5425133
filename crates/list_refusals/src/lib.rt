// What refuses a run of the list machine.
#![tactic(auto)]

pub mod judgement;
