// What each variant writes: what its source is, after what it refuses.
#![tactic(auto)]

mod variants; // variants.rt: each variant's writing

pub use variants::{
    encode_leading_length, encode_min_max_len, encode_param_len, encode_standard_len,
};
