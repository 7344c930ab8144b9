// The 16-byte record of a coded type, read into a coded type by value.
#![tactic(auto)]

mod numbers; // numbers.rt: the numbers of a record, big-endian
mod parsing; // parsing.rt: from the numbers of a record to the coded type that they say
mod recorded; // recorded.rt: what a call that takes a record refuses before it has a coded type

pub use numbers::{Flags, Numbers, RECORD_SIZE, read16};
pub use parsing::parse;
pub use recorded::coded_by_record;
