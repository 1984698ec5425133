// What a load or a save of an object module is refused for.
#![tactic(auto)]

pub mod judgement;
