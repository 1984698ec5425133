// The commit of what an instruction asks for, and the stores that one may ask for. What both mean is in `machine`.
#![tactic(auto)]

pub mod commit;
pub mod rolling;
pub mod several;
pub mod stores;
