// Listing files to short ones and back: definitions, laws, and how an output is written. The two ways are in `shortening` and `lengthening`.
#![tactic(auto)]

pub mod writing;
