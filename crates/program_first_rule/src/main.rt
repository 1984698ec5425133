// Starts a machine on the first rule of document 01 (literals 2 and 3, +, HALT at 10h), its three cells the table, runs it, and says why it stopped and after how many cycles.
#![tactic(auto)]

use areas::{Area, Areas};
use cell::{Address, CellCount, Refusal};
use machine::Table;
use processor::Ran;
use processor::entry::run;
use processor_start::Started;
use processor_start::entry::start;
use std::io;

// How a run ended.
fn print_ran(rt: &impl Print, ran: Result<Ran, Refusal>) -> io::Result<()> {
    match ran {
        Err(_) => println!(rt; "refused"),
        Ok(Ran::Spent(_)) => println!(rt; "spent"),
        Ok(Ran::Stopped(_, reason, done)) => println!(rt; "reason {reason:08X}, cycles {done:08X}"),
    }
}

fn main(rt: HostRuntime) -> io::Result<()> {
    let mut memory = [0u8; 1024];
    // the cells 00000253h, 00000353h and 0000551Eh, least byte first
    memory[16] = 0x53;
    memory[17] = 0x02;
    memory[20] = 0x53;
    memory[21] = 0x03;
    memory[24] = 0x1E;
    memory[25] = 0x55;
    let none = Area {
        top: Address(0),
        cells: CellCount(0),
    };
    let areas = Areas {
        stack: none,
        returns: none,
    };
    let table = Table {
        first: Address(16),
        end: Address(28),
    };
    match start(0, &mut memory, Address(16), Address(0), areas, table) {
        Ok(Started::Ready(r)) => print_ran(&rt, run(0, &mut memory, table, r, 100)),
        _ => println!(rt; "not ready"),
    }
}
