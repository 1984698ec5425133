// The judgement of the table that an office sets.
#![tactic(auto)]

pub mod judging;
