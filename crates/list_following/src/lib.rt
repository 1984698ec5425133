// A listing judged, laid out and followed from where the list machine is told to stand.
#![tactic(auto)]

pub mod follow;
