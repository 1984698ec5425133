// The judgement of a batch.
#![tactic(auto)]

pub mod judgement;
