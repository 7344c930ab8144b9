// The field layer: a field decoded, encoded and cleared. It knows no store and no record: a `Field` has its mask.
#![tactic(auto)]

mod decoding; // decoding.rt: decode
mod encoding; // encoding.rt: encode
mod clearing; // clearing.rt: clear

pub use clearing::clear_field;
pub use decoding::decode_field;
pub use encoding::encode_field;
