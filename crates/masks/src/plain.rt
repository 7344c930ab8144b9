// Bits kept or cleared under a mask in plain use, of which a short one repeats its first byte.
ghost use Rattle.std.specs.Prelude.{◌≡◌, ◌*◌, ◌≤◌, length};
ghost use Rattle.masks.specs.Plain.{bit_of_mask, keeps, masked};

use kinds::{BitLength, ByteCount};

// Which bits a mask keeps. The others it clears.
#[derive(Clone, Copy, Debug, PartialEq, Eq)]
pub enum Kept {
    UnderOnes,
    UnderZeros,
}

// Bit i of a mask.
#[tactic(auto, using(crate::proofs::Masked::mask_bit_empty), unfolding(crate::specs::Plain::bit_of_mask))]
pub fn mask_bit_at(mask: &[u8], i: usize) -> u8
    ensures { result ≡ bit_of_mask mask.now i }
{
    if mask.len() == 0 {
        return 0;
    }
    let byte = kinds::byte_from_last(i);
    if byte < mask.len() {
        return bits::bit_of(mask[mask.len() - byte - 1], i);
    }
    bits::bit_of(mask[0], i)
}

// Whether a bit is kept (1) or cleared (0) at a mask bit: a bit itself, since it is put to one by `&`.
#[tactic(auto, unfolding(crate::specs::Plain::bit_of_mask, bits::specs::Bits::bit))]
fn keeps_at(kept: Kept, mask: &[u8], i: usize) -> u8
    ensures { result ≡ keeps kept (bit_of_mask mask.now i) }
{
    let mask_bit = mask_bit_at(mask, i);
    match kept {
        Kept::UnderOnes => mask_bit,
        Kept::UnderZeros => 1 - mask_bit,
    }
}

// Keeps or clears bits of the data from a bit position on, by the bits of the mask from its lowest, in a loop over their index. Its bounds are asked again: in a type
// of its own the data would have to be said to be the same slice, which is no plainer.
#[tactic(auto, using(crate::proofs::Masked::masked_step, bits::proofs::Steps::overlaid_none, bits::proofs::Steps::overlaid_past))]
pub fn apply_bit_mask(data: &mut [u8], mask: &[u8], kept: Kept, bit_len: BitLength, bit_pos: usize)
    requires data_len_bound { length «data».old ≤ 65535 }
    requires bit_pos_bound { bit_pos ≤ 8 * 65535 }
    ensures { «data».new ≡ masked kept bit_len.0 bit_pos mask.now «data».old }
{
    let end = ByteCount(data.len()).bit_end();
    for i in 0..bit_len.bits() {
        if bit_pos + i >= end {
            break;
        }
        let keep = keeps_at(kept, mask, i);
        let data_bit = bits::bit_at(data, bit_pos + i);
        bits::set_bit_at(data, bit_pos + i, data_bit & keep, true);
    }
}
