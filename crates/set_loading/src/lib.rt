// Sets of modules: loading them together.
#![tactic(auto)]

pub mod loading;
