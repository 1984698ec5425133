// What a packing fills before its image is written: the entries, the marks and the layout of a listing.
#![tactic(auto)]

pub mod prepare;
