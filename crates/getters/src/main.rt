// Prints what the getters say of each record of the standard input, in the lines that docs/DIFFERENTIAL.md tells of.
#![tactic(auto)]

mod columns; // columns.rt: what a line is made of
mod lines; // lines.rt: the lines of what a record says

use std::io;
use std::io::{ErrorKind, Read};

fn show(rt: &impl Print, bytes: &[u8], store: &[u8]) -> io::Result<()> {
    match record::parse(bytes) {
        None => println!(rt;),
        Some(coded_type) => lines::show(rt, coded_type, store),
    }
}

// Whether all of the buffer came before the input ended.
fn filled<R: Read>(input: &mut R, buffer: &mut [u8]) -> io::Result<bool> {
    match input.read_exact(buffer) {
        Ok(()) => Ok(true),
        Err(error) if error.kind() == ErrorKind::UnexpectedEof => Ok(false),
        Err(error) => Err(error),
    }
}

// Whether a record and its store came, and then their lines are printed.
fn shown<R: Read>(rt: &impl Print, input: &mut R) -> io::Result<bool> {
    let mut bytes = [0u8; record::RECORD_SIZE];
    let mut store = [0u8; 32];
    if !filled(input, &mut bytes)? || !filled(input, &mut store)? {
        return Ok(false);
    }
    show(rt, &bytes, &store)?;
    Ok(true)
}

fn main(rt: HostRuntime) -> io::Result<()> {
    let mut input = rt.stdin();
    // A proved loop has to end, and nothing says that the input does.
    for _ in 0..u64::MAX {
        if !shown(&rt, &mut input)? {
            break;
        }
    }
    Ok(())
}
