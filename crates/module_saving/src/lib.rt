// Object modules: saving, in either byte order.
#![tactic(auto)]

pub mod saving;
