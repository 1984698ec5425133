// The unpacker: an image becomes the listing that packs to it. An unpacking answers the number of items of the listing.
#![tactic(auto)]

pub mod recover;
pub mod unpack;

// The bytes that an image has at most: two cells an item.
pub const MOST_BYTES: usize = 32768;

// The cells that an image has at most.
pub const MOST_CELLS: usize = 8192;
