// A listing packed again and compared with an image.
#![tactic(auto)]

pub mod compare;
