// The four encodings of a value: which widths each allows, what bits say in it, and the bits that a number is written as.
#![tactic(auto)]

mod forms; // forms.rt: the encodings, their codes, and the widths and ranges of each
mod meanings; // meanings.rt: what bits say, and the bits that a number is written as

pub use forms::{Encoding, Form};
