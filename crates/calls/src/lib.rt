// Every call, by a coded type or by its record. Every input gets an answer: nothing is required of it.
#![tactic(auto)]

mod description; // description.rt: what a call is told of its field
mod decoding; // decoding.rt: decode
mod encoding; // encoding.rt: encode
mod clearing; // clearing.rt: clear
mod runtime; // runtime.rt: the read with a byte count given at run time, and key names: parts of what was lent

pub use clearing::clear;
pub use decoding::decode;
pub use description::Description;
pub use encoding::encode;
pub use runtime::{decode_with_runtime_byte_length, length_key_name};
