// What every call does after its slices: what the coded type's own description is refused for, and then its field. Here a coded type and
// its store become a field: masks are parts of the store. Each call has its own function, so that a wrong edit of one is of that call alone.
#![tactic(auto)]

mod decoding; // decoding.rt: decode
mod encoding; // encoding.rt: encode
mod clearing; // clearing.rt: clear
mod runtime; // runtime.rt: the read with a byte count given at run time

pub use clearing::clear_described;
pub use decoding::decode_described;
pub use encoding::encode_described;
pub use runtime::part_described;
