// Where the list machine stands, and what the item there asks for.
#![tactic(auto)]

pub mod proposing;

use pack_layout::ItemNumber;

// In front of an item: whether it was run on into from an item not in its immediate form, and the stack pointers.
#[derive(Clone, Copy)]
pub struct Stand {
    pub item: ItemNumber,
    pub ran: bool,
    pub sp: u32,
    pub rp: u32,
}
