// A buffer, filled from the input.
ghost use Rattle.std.specs.Prelude.{◌≤◌, length, IfOk};

use std::io;
use std::io::{ErrorKind, Read};

// Why an answer does not come: the input ends within it, or cannot be read.
#[derive(Debug, Drop)]
pub enum Stop {
    Cut,
    Failed(io::Error),
}

impl From<io::Error> for Stop {
    fn from(error: io::Error) -> Self {
        Stop::Failed(error)
    }
}

// Reads until the buffer is full or the input ends, and returns how many bytes came. A read that a signal interrupts is tried again.
// A loop over how many came, and not `read_exact`: of an input that ends, that one does not tell whether none came or some.
pub fn read_full<R: Read>(input: &mut R, buffer: &mut [u8]) -> io::Result<usize>
    ensures { IfOk result (λ n. n ≤ length buffer.new) }
{
    let mut done = 0;
    // A proved loop has to end, and nothing says that signals do.
    for _ in 0..u64::MAX {
        if done >= buffer.len() {
            break;
        }
        match input.read(&mut buffer[done..]) {
            Ok(0) => break,
            Ok(n) => done += n,
            Err(error) if error.kind() == ErrorKind::Interrupted => {}
            Err(error) => return Err(error),
        }
    }
    Ok(done)
}

// Fills the buffer, or says why not.
pub fn fill<R: Read>(input: &mut R, buffer: &mut [u8]) -> Result<(), Stop> {
    let room = buffer.len();
    if read_full(input, buffer)? == room {
        Ok(())
    } else {
        Err(Stop::Cut)
    }
}
