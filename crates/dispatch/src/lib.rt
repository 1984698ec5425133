// One arm for each opcode. The arms stand in four functions, each of which hands on what it has no arm for, since the check of a `match` grows
// faster than its arms; compiled, the four are one jump. The two that begin at 2Ch and at 42h have crates of their own, `dispatch_2c` and `dispatch_42`.
#![tactic(auto)]

pub mod from_00;
pub mod from_16;
