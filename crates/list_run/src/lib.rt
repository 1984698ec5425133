// The list machine as an office runs it: a listing followed item by item on a lent memory, with no image in it.
#![tactic(auto)]

pub mod follow;
