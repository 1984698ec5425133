// Packs listings that are held here and prints what each gives: the rows of document 01, a branch that is marked, and one
// listing or file for each refusal. What a successful packing answers is the number of cells; they are printed one a line.
#![tactic(auto)]

mod files;
mod rows;

use std::io;

fn main(rt: HostRuntime) -> io::Result<()> {
    rows::worked(&rt)?;
    rows::marked(&rt)?;
    rows::refused(&rt)?;
    files::cut(&rt)
}
