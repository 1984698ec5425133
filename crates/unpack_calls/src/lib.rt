// What the call for images tells in the arrays that were lent.
#![tactic(auto)]

pub mod notes;
