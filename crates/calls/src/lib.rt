// What the calls of the interface judge beside the calls that they hand on to, and what they tell in the arrays that were lent. Those for the processor are in `processor_calls`, those for the list machine in `list_calls`.
#![tactic(auto)]

pub mod notes;
