// Listings in two arrays. The kinds here: 01h DUP, 1Eh +, 42h BRANCH, 52h literal, 55h HALT.
use cell::Address;
use packer::pack::pack;
use program_print::print_packed;
use std::io;

// One listing into an output.
fn show_in(
    rt: &impl Print,
    name: &str,
    order: u8,
    kinds: &[u8],
    operands: &[u32],
    base: Address,
    output: &mut [u8],
) -> io::Result<()> {
    println!(rt; "{name}:")?;
    let answer = pack(order, kinds, operands, base, output);
    print_packed(rt, answer, output)
}

// One listing into an output of some size, at most 1,024 bytes.
fn show(
    rt: &impl Print,
    name: &str,
    order: u8,
    kinds: &[u8],
    operands: &[u32],
    base: Address,
    size: usize,
) -> io::Result<()> {
    if size <= 1024 {
        let mut output = [0u8; 1024];
        show_in(rt, name, order, kinds, operands, base, &mut output[0..size])?;
    }
    Ok(())
}

// A listing in order 0 at 10h, with room for it.
fn row(rt: &impl Print, name: &str, kinds: &[u8], operands: &[u32]) -> io::Result<()> {
    show(rt, name, 0, kinds, operands, Address(0x10), 1024)
}

// After two DUPs, one literal.
fn after_two(rt: &impl Print, name: &str, x: u32) -> io::Result<()> {
    row(rt, name, &[0x01, 0x01, 0x52], &[0, 0, x])
}

fn literals(rt: &impl Print) -> io::Result<()> {
    row(rt, "2 3 + HALT", &[0x52, 0x52, 0x1E, 0x55], &[2, 3, 0, 0])?;
    after_two(rt, "DUP DUP -1", 0xFFFFFFFF)?;
    after_two(rt, "DUP DUP 127", 127)?;
    after_two(rt, "DUP DUP -128", 0xFFFFFF80)?;
    after_two(rt, "DUP DUP 128", 128)?;
    after_two(rt, "DUP DUP -129", 0xFFFFFF7F)
}

fn others(rt: &impl Print) -> io::Result<()> {
    row(rt, "8388607", &[0x52], &[8388607])?;
    row(rt, "8388608", &[0x52], &[8388608])?;
    row(
        rt,
        "DUP DUP DUP 0",
        &[0x01, 0x01, 0x01, 0x52],
        &[0, 0, 0, 0],
    )?;
    row(rt, "branch to itself", &[0x42], &[0])
}

// The rows of document 01 on packing, in its order.
pub fn worked(rt: &impl Print) -> io::Result<()> {
    literals(rt)?;
    others(rt)
}

// Two DUPs, a branch with one byte left to the last of 109 items, and between them 105 literals that each take an operand cell.
pub fn marked(rt: &impl Print) -> io::Result<()> {
    let mut kinds = [0x52u8; 109];
    let mut operands = [8388608u32; 109];
    kinds[0] = 0x01;
    kinds[1] = 0x01;
    kinds[2] = 0x42;
    kinds[108] = 0x01;
    operands[0] = 0;
    operands[1] = 0;
    operands[2] = 108;
    operands[108] = 0;
    row(rt, "a marked branch", &kinds, &operands)
}

// What the input list refuses, after the byte order.
fn bad_input(rt: &impl Print) -> io::Result<()> {
    show(rt, "order 2", 2, &[0x00], &[], Address(0x12), 0)?;
    row(rt, "no item", &[], &[])?;
    row(rt, "unequal arrays", &[0x01], &[])?;
    row(rt, "no kind", &[0x53], &[0])
}

fn bad_operands(rt: &impl Print) -> io::Result<()> {
    row(rt, "no kind, with an operand", &[0x53], &[1])?;
    row(rt, "a plain operand", &[0x01], &[1])?;
    row(rt, "a target of n", &[0x42], &[1])?;
    row(
        rt,
        "the lowest item first",
        &[0x52, 0x42, 0x01, 0xFF],
        &[9, 4, 1, 0],
    )
}

fn bad_base(rt: &impl Print) -> io::Result<()> {
    show(rt, "base 12h", 0, &[0x01], &[0], Address(0x12), 0)?;
    show(rt, "base 0Ch", 0, &[0x01], &[0], Address(0x0C), 0)?;
    show(
        rt,
        "two cells at FFFFFCh",
        0,
        &[0x52],
        &[8388608],
        Address(0xFFFFFC),
        0,
    )?;
    show(
        rt,
        "one cell at FFFFFCh",
        0,
        &[0x01],
        &[0],
        Address(0xFFFFFC),
        4,
    )
}

fn bad_output(rt: &impl Print) -> io::Result<()> {
    show(rt, "no room", 0, &[0x52], &[8388608], Address(0x10), 7)?;
    show(rt, "just room", 0, &[0x52], &[8388608], Address(0x10), 8)
}

pub fn refused(rt: &impl Print) -> io::Result<()> {
    bad_input(rt)?;
    bad_operands(rt)?;
    bad_base(rt)?;
    bad_output(rt)
}
