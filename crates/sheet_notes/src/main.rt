// Reads a request sheet from standard input, and notes for each line what it reads as, or its fault, and that the
// line written for it is the line that was read.
#![tactic(auto)]

use answers::Refusal;
use sheets::{Fault, Lines, Token, read_line, write_line};
use std::io;
use std::io::Read;

fn written_back(rt: &HostRuntime, token: Token<'_>, line: &[u8]) -> io::Result<()> {
    let mut copy = [0u8; 20];
    match write_line(token, &mut copy) {
        Ok(()) if &copy[..] == line => println!(rt; "; written back, it is the same line"),
        _ => println!(rt; "; written back, it is another line"),
    }
}

fn fault(rt: &HostRuntime, fault: Fault) -> io::Result<()> {
    let number = Refusal::from(fault).number();
    let column = fault.column();
    println!(rt; "refused, {number}, at column {column}")
}

fn note(rt: &HostRuntime, number: u32, line: &[u8]) -> io::Result<()> {
    print!(rt; "line {number}: ")?;
    match read_line(line) {
        Ok(token) => {
            print!(rt; "{token}")?;
            written_back(rt, token, line)
        }
        Err(bad) => fault(rt, bad),
    }
}

fn main(rt: HostRuntime) -> io::Result<()> {
    let mut sheet = Vec::new(rt.alloc());
    let _ = rt.stdin().read_to_end(&mut sheet)?;
    for (number, line) in (1..1_000_000u32).zip(Lines::new(sheet.as_slice())) {
        note(&rt, number, line)?;
    }
    Ok(())
}
