// What the calls for the processor judge beside the calls that they hand on to, and what they tell in the arrays that were lent.
#![tactic(auto)]

pub mod machines;
