// Makes the calls of stored answers again: reads the answers from the standard input and prints how many come out the same.
#![tactic(auto)]

use std::io;
use std::io::Read;
use stored_answers::Verdict;

// How many answers were the same, and how many not.
#[derive(Clone, Copy, Debug, PartialEq, Eq)]
struct Counts {
    same: u64,
    other: u64,
}

fn counted<R: Read>(input: &mut R) -> io::Result<Counts> {
    let mut counts = Counts { same: 0, other: 0 };
    // A proved loop has to end, and nothing says that the input does.
    for _ in 0..u64::MAX {
        match stored_answers::next(input)? {
            None => break,
            Some(Verdict::Same) => counts.same += 1,
            Some(Verdict::Other) => counts.other += 1,
            Some(Verdict::Cut) => {
                counts.other += 1;
                break;
            }
        }
    }
    Ok(counts)
}

fn main(rt: HostRuntime) -> io::Result<()> {
    let counts = counted(&mut rt.stdin())?;
    println!(rt; "{} the same, {} not", counts.same, counts.other)
}
