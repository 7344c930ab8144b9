// What each variant reads: where its bits are, and what is taken from there.
#![tactic(auto)]

mod variants; // variants.rt: each variant's reading

pub use variants::{decode_leading_len, decode_min_max_len, decode_standard_len};
