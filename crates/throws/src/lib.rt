// NEXT, the throw and the stops. The machine that they are made on is in `machine`, and what is thrown for a fault in `exceptions`.
#![tactic(auto)]

pub mod ending;
