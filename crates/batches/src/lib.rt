// A rule over many forms.
#![tactic(auto)]

pub mod running;
