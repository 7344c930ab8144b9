// The answers of an input, one after the other.
use super::filling::{Stop, fill, read_full};
use super::head::{HEAD_LEN, Head};
use super::stored::{BODY_MOST, Stored, Verdict};
use std::io;
use std::io::Read;

// What became of the next stored answer, if there is one. Its body comes by one read: each read of the standard input is a call of the system.
fn verdict<R: Read>(input: &mut R) -> Result<Option<Verdict>, Stop> {
    let mut head = [0; HEAD_LEN];
    match read_full(input, &mut head)? {
        0 => return Ok(None),
        HEAD_LEN => {}
        _ => return Err(Stop::Cut),
    }
    let head = Head::from(head);
    let mut body = [0; BODY_MOST];
    fill(input, &mut body[..head.body_len()])?;
    Ok(Some(Stored::of(&head, &body).verdict()))
}

// The same, and where an answer is cut off, that it is.
pub fn next<R: Read>(input: &mut R) -> io::Result<Option<Verdict>> {
    match verdict(input) {
        Ok(verdict) => Ok(verdict),
        Err(Stop::Cut) => Ok(Some(Verdict::Cut)),
        Err(Stop::Failed(error)) => Err(error),
    }
}
