// Taking the bits of a field of a payload back to zero.
#![tactic(auto)]

mod clearing; // clearing.rt: clear of a field of a given length

pub use clearing::clear_standard_len;
