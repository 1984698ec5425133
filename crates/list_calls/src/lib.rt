// What the calls for the list machine judge beside the call that they hand on to, and what they tell in the arrays that were lent.
#![tactic(auto)]

pub mod lists;
