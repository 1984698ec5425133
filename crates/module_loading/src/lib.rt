// Object modules: loading, in either byte order.
#![tactic(auto)]

pub mod loading;
