// Masks on bits of bytes, in plain use. A mask is a slice; nothing of it is copied.
#![tactic(auto)]

mod uses; // uses.rt: a mask with its use
mod plain; // plain.rt: bits kept or cleared under a mask

pub use plain::{Kept, apply_bit_mask, mask_bit_at};
pub use uses::Mask;
