// Listing files, whole and cut.
use pack_files::file::pack_file;
use program_print::print_packed;
use std::io;

// The first n bytes of a file.
fn front(rt: &impl Print, file: &[u8], n: usize) -> io::Result<()> {
    if n <= file.len() {
        println!(rt; "{n} bytes:")?;
        let mut output = [0u8; 1024];
        let answer = pack_file(0, &file[0..n], &mut output);
        print_packed(rt, answer, &output)?;
    }
    Ok(())
}

// One item, DUP at 10h, with a byte too many behind it.
pub fn cut(rt: &impl Print) -> io::Result<()> {
    let file = [1u8, 0, 0, 0, 0x10, 0, 0, 0, 0x01, 0, 0, 0, 0, 0];
    front(rt, &file, 0)?;
    front(rt, &file, 7)?;
    front(rt, &file, 8)?;
    front(rt, &file, 12)?;
    front(rt, &file, 14)?;
    front(rt, &file, 13)
}
