// What a line is made of: what may be absent, bytes in hexadecimal digits, and what may be refused.
use kinds::Refusal;
use std::fmt;

// What there is, or a minus.
#[derive(Clone, Copy, Debug, PartialEq, Eq)]
pub struct OrMinus<T>(pub Option<T>);

impl<T: fmt::Display> fmt::Display for OrMinus<T> {
    fn fmt<W: fmt::Write>(&self, f: &mut fmt::Formatter<W>) -> fmt::Result {
        match self {
            OrMinus(Some(given)) => write!(f, "{given}"),
            OrMinus(None) => write!(f, "-"),
        }
    }
}

// In brackets, so that no bytes are told from nothing.
#[derive(Clone, Copy, Debug, PartialEq, Eq)]
pub struct Bytes<'a>(pub &'a [u8]);

impl fmt::Display for Bytes<'_> {
    fn fmt<W: fmt::Write>(&self, f: &mut fmt::Formatter<W>) -> fmt::Result {
        let Bytes(bytes) = *self;
        write!(f, "[")?;
        for byte in bytes {
            write!(f, "{byte:02x}")?;
        }
        write!(f, "]")
    }
}

// A refusal's number, or 0 and then what was given.
#[derive(Clone, Copy, Debug, PartialEq, Eq)]
pub struct Answer<T>(pub Result<T, Refusal>);

impl<T: fmt::Display> fmt::Display for Answer<T> {
    fn fmt<W: fmt::Write>(&self, f: &mut fmt::Formatter<W>) -> fmt::Result {
        match self {
            Answer(Ok(given)) => write!(f, "0 {given}"),
            Answer(Err(refusal)) => write!(f, "{}", refusal.number()),
        }
    }
}
