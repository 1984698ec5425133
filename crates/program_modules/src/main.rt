// Loads modules that are cut short, run on or are damaged, loads and saves at places that do not serve, halts loads, and prints what each call
// answers: the paper's number, and the count. After some of them it prints the first bytes of the memory or the output.
#![tactic(auto)]

mod printing;

use cell::{Address, CellCount};
use module_loading::loading::{load_first, load_object};
use module_saving::saving::save_object;
use printing::{print_front, print_label, print_loaded, print_saved};
use std::io;

// The first n bytes of a file.
fn cut(rt: &impl Print, memory: &mut [u8], file: &[u8], n: usize) -> io::Result<()> {
    if n <= file.len() {
        print_label(rt, "bytes", n)?;
        print_loaded(rt, load_object(0, memory, &file[0..n], Address(16)))?;
    }
    Ok(())
}

// A file with EEh for one byte, which comes back.
fn damage(rt: &impl Print, memory: &mut [u8], file: &mut [u8], at: usize) -> io::Result<()> {
    if at < file.len() {
        print_label(rt, "damaged", at)?;
        let kept = file[at];
        file[at] = 0xEE;
        let answer = load_object(0, memory, file, Address(16));
        file[at] = kept;
        print_loaded(rt, answer)?;
    }
    Ok(())
}

// A file at an address of the first n bytes of a memory.
fn place(
    rt: &impl Print,
    order: u8,
    memory: &mut [u8],
    file: &[u8],
    n: usize,
    address: Address,
) -> io::Result<()> {
    if n <= memory.len() {
        print_label(rt, "address", address.0 as usize)?;
        print_loaded(rt, load_object(order, &mut memory[0..n], file, address))?;
    }
    Ok(())
}

// A load of the first n bytes of a file, on a machine of order 1, that halts after a number of cells.
fn halt(
    rt: &impl Print,
    memory: &mut [u8],
    file: &[u8],
    n: usize,
    cells: CellCount,
) -> io::Result<()> {
    if n <= file.len() {
        print_label(rt, "first", cells.0 as usize)?;
        print_loaded(rt, load_first(1, memory, &file[0..n], Address(0), cells))?;
        print_front(rt, memory)?;
    }
    Ok(())
}

// Cells saved into the first n bytes of an output.
fn save(
    rt: &impl Print,
    order: u8,
    memory: &[u8],
    output: &mut [u8],
    n: usize,
    address: Address,
    cells: CellCount,
) -> io::Result<()> {
    if n <= output.len() {
        print_label(rt, "output", n)?;
        print_saved(
            rt,
            save_object(order, memory, address, cells, &mut output[0..n]),
        )?;
    }
    Ok(())
}

fn cuts(rt: &impl Print, memory: &mut [u8; 1024], file: &[u8; 21]) -> io::Result<()> {
    cut(rt, memory, file, 0)?;
    cut(rt, memory, file, 7)?;
    cut(rt, memory, file, 8)?;
    cut(rt, memory, file, 11)?;
    cut(rt, memory, file, 12)?;
    cut(rt, memory, file, 19)?;
    cut(rt, memory, file, 21)?;
    print_front(rt, memory)?;
    cut(rt, memory, file, 20)?;
    print_front(rt, memory)
}

// One byte of the title, the 00h, the order, and each byte of the count.
fn damages(rt: &impl Print, memory: &mut [u8; 1024], file: &mut [u8; 20]) -> io::Result<()> {
    damage(rt, memory, file, 3)?;
    damage(rt, memory, file, 6)?;
    damage(rt, memory, file, 7)?;
    damage(rt, memory, file, 8)?;
    damage(rt, memory, file, 9)?;
    damage(rt, memory, file, 10)?;
    damage(rt, memory, file, 11)
}

fn places(rt: &impl Print, memory: &mut [u8; 1024], file: &[u8; 20]) -> io::Result<()> {
    place(rt, 0, memory, file, 1020, Address(16))?;
    place(rt, 0, memory, file, 1023, Address(16))?;
    place(rt, 2, memory, file, 1024, Address(16))?;
    place(rt, 0, memory, file, 1024, Address(18))?;
    place(rt, 0, memory, file, 1024, Address(1020))?;
    place(rt, 0, memory, file, 1024, Address(1024))?;
    place(rt, 0, memory, file, 1024, Address(0xFFFFFFFC))?;
    place(rt, 1, memory, file, 1024, Address(16))?;
    print_front(rt, memory)
}

// Into a memory of 5Ah.
fn halts(rt: &impl Print, file: &[u8; 20]) -> io::Result<()> {
    let mut memory = [0x5Au8; 1024];
    halt(rt, &mut memory, file, 20, CellCount(0))?;
    halt(rt, &mut memory, file, 20, CellCount(1))?;
    halt(rt, &mut memory, file, 20, CellCount(3))?;
    halt(rt, &mut memory, file, 19, CellCount(0))
}

fn saves(rt: &impl Print, memory: &[u8; 1024], output: &mut [u8; 24]) -> io::Result<()> {
    save(rt, 2, memory, output, 20, Address(16), CellCount(2))?;
    save(rt, 1, memory, output, 20, Address(17), CellCount(2))?;
    save(rt, 1, memory, output, 20, Address(1020), CellCount(2))?;
    save(rt, 1, memory, output, 20, Address(1024), CellCount(0))?;
    save(
        rt,
        1,
        memory,
        output,
        20,
        Address(16),
        CellCount(0xFFFFFFFF),
    )?;
    save(rt, 1, memory, output, 19, Address(16), CellCount(2))?;
    print_front(rt, output)?;
    save(rt, 1, memory, output, 20, Address(16), CellCount(2))?;
    print_front(rt, output)
}

// A module of order 0 with the cells 55h and 01020304h.
fn sample() -> [u8; 20] {
    [
        b'B', b'E', b'E', b'T', b'L', b'E', 0, 0, 2, 0, 0, 0, 0x55, 0, 0, 0, 4, 3, 2, 1,
    ]
}

// The same module and one byte more.
fn longer() -> [u8; 21] {
    [
        b'B', b'E', b'E', b'T', b'L', b'E', 0, 0, 2, 0, 0, 0, 0x55, 0, 0, 0, 4, 3, 2, 1, 0,
    ]
}

fn main(rt: HostRuntime) -> io::Result<()> {
    let mut memory = [0u8; 1024];
    let mut output = [0u8; 24];
    let mut file = sample();
    let long = longer();
    cuts(&rt, &mut memory, &long)?;
    damages(&rt, &mut memory, &mut file)?;
    places(&rt, &mut memory, &file)?;
    halts(&rt, &file)?;
    saves(&rt, &memory, &mut output)
}
