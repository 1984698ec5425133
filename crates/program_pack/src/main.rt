// Packs the listing file that the first argument names, or standard input where there is none, and prints the cells of its image, one a
// line, or the number of the refusal.
#![tactic(auto)]

ghost use Rattle.std.specs.Prelude.{◌≤◌, length, IfOk};

use pack_files::file::pack_file;
use program_print::print_packed;
use std::env::FillError;
use std::fs::File;
use std::io;
use std::io::{Error, ErrorKind, Read};
use std::rt::Env;

// Packs a listing file and prints the result. An image has at most 8,192 cells.
fn print_image(rt: &impl Print, file: &[u8]) -> io::Result<()> {
    let mut output = [0u8; 32768];
    let answer = pack_file(0, file, &mut output);
    print_packed(rt, answer, &output)
}

// Fills an array as far as the input goes, and answers how many bytes that were.
fn read_full(input: &mut impl Read, bytes: &mut [u8]) -> io::Result<usize>
    ensures { IfOk result (λ n. n ≤ length bytes.new) }
{
    let mut done = 0;
    while done < bytes.len() {
        let n = input.read(&mut bytes[done..])?;
        if n == 0 {
            break;
        }
        done += n;
    }
    Ok(done)
}

fn print_error(rt: &impl Eprint, name: &str, error: Error) -> io::Result<()> {
    eprintln!(rt; "{name}: {error}")
}

// Packs what an open file has. The longest listing has 20,488 bytes, and one more is enough to refuse a longer file.
fn pack_from(rt: &(impl Print + Eprint), input: &mut impl Read, name: &str) -> io::Result<()> {
    let mut file = [0u8; 20489];
    match read_full(input, &mut file) {
        Ok(end) => print_image(rt, &file[..end]),
        Err(error) => print_error(rt, name, error),
    }
}

// The path that the first argument gives, or `None` where there is no argument. A path is UTF-8 and fits into the buffer.
fn find_path<'a>(rt: &impl Env, buffer: &'a mut [u8]) -> io::Result<Option<&'a str>> {
    match rt.arg(1, buffer) {
        Ok(n) => match str::from_utf8(&buffer[..n]) {
            Ok(path) => Ok(Some(path)),
            Err(_) => Err(Error::from(ErrorKind::InvalidFilename)),
        },
        Err(FillError::NotPresent) => Ok(None),
        Err(FillError::TooLong) => Err(Error::from(ErrorKind::InvalidFilename)),
    }
}

fn main(rt: HostRuntime) -> io::Result<()> {
    let mut buffer = [0u8; 4096];
    match find_path(&rt, &mut buffer) {
        Ok(None) => pack_from(&rt, &mut rt.stdin(), "standard input"),
        Ok(Some(path)) => match File::open(&rt, path) {
            Ok(mut file) => pack_from(&rt, &mut file, path),
            Err(error) => print_error(&rt, path, error),
        },
        Err(error) => print_error(&rt, "path", error),
    }
}
