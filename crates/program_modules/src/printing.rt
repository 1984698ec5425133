// What the program prints.
use cell::judgement::answer_number;
use cell::{CellCount, Refusal};
use program_print::print_number;
use std::io;

pub fn print_label(rt: &impl Print, name: &str, n: usize) -> io::Result<()> {
    print!(rt; "{name} {n}: ")
}

fn print_answer(rt: &impl Print, number: u32, count: u32) -> io::Result<()> {
    if number == 0 {
        print!(rt; "0")?;
    } else {
        print_number(rt, number)?;
    }
    println!(rt; ", count {count}")
}

pub fn print_loaded(rt: &impl Print, answer: Result<CellCount, Refusal>) -> io::Result<()> {
    let cells = answer.unwrap_or(CellCount(0));
    print_answer(rt, answer_number(answer), cells.0)
}

pub fn print_saved(rt: &impl Print, answer: Result<u32, Refusal>) -> io::Result<()> {
    print_answer(rt, answer_number(answer), answer.unwrap_or(0))
}

fn print_byte(rt: &impl Print, x: u8) -> io::Result<()> {
    print!(rt; "{x:02x}")
}

fn print_bytes(rt: &impl Print, bytes: &[u8]) -> io::Result<()> {
    for x in bytes {
        print_byte(rt, *x)?;
    }
    Ok(())
}

// The first 24 bytes.
pub fn print_front(rt: &impl Print, bytes: &[u8]) -> io::Result<()> {
    if 24 <= bytes.len() {
        print_bytes(rt, &bytes[0..24])?;
        println!(rt)?;
    }
    Ok(())
}
