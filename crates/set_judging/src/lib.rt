// The modules of a set, and what a set is refused for: its definitions and laws, and the code that reads a module.
#![tactic(auto)]

pub mod members;

use cell::Address;

// A module of a set: the byte address that it goes to, the buffer's byte that it begins with, and how many bytes it has.
#[derive(Clone, Copy)]
pub struct Member {
    pub address: Address,
    pub place: u32,
    pub size: u32,
}
