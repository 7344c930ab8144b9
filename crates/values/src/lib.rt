// Signed and decimal values: a number read from the bytes of a field, and written to them. Every input gets an answer: nothing is required.
#![tactic(auto)]

mod codes; // codes.rt: an encoding told by its code
mod sizes; // sizes.rt: how many bytes a value may have
mod reading; // reading.rt: read
mod writing; // writing.rt: write

pub use reading::{read, read_by_code};
pub use writing::{write, write_by_code};
