// A stored answer of the Rust: read from the input, and its call made again and compared with it.
#![tactic(auto)]

mod filling; // filling.rt: a buffer, filled from the input
mod head; // head.rt: the head of a stored answer, taken apart
mod part; // part.rt: what a call writes to
mod stored; // stored.rt: a stored answer, and what becomes of it
mod answers; // answers.rt: the answers of an input, one after the other

pub use answers::next;
pub use stored::Verdict;
