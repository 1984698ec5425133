// The packer: a listing becomes cells. A packing answers the number of cells of the image. Listing files are packed in `pack_files`.
#![tactic(auto)]

pub mod pack;
