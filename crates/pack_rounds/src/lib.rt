// The layout of a listing and the rounds that settle its marks, over lent arrays.
#![tactic(auto)]

pub mod lay;
pub mod mark;
pub mod measure;
pub mod place;
pub mod settle;
