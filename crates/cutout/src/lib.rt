// The ordered cut-out: a source put into it, and a field's own bits taken out of it. Its bound is asked again: in a type of its own each function
// would have to say that the slice is the same, which is no plainer.
#![tactic(auto)]

ghost use Rattle.std.specs.Prelude.{◌≡◌, ◌+◌, ◌*◌, ◌≤◌, length};
ghost use Rattle.order.specs.Order.{ordered};
ghost use Rattle.masks.specs.Mask.{mask_of};
ghost use Rattle.pack.specs.CodePacking.{source_of};
ghost use Rattle.cutout.specs.CutOut.{cleared, put};

use kinds::{BitLength, ByteOrder};
use masks::{Kept, Mask};
use pack::Source;

// Puts a source into the ordered bytes, after what is under a mask is cleared.
#[tactic(auto, unfolding(crate::specs::CutOut::readied, crate::specs::CutOut::cleared))]
fn put_bits(source: Source, bit_pos: usize, cut_out: &mut [u8])
    requires cut_out_len_bound { length cut_out.old ≤ 65535 }
    requires bit_len_bound { bit_pos + source.packed.packing.bit_len.0 ≤ 8 * length cut_out.old }
    ensures { cut_out.new ≡ put (source_of source.entry) bit_pos cut_out.old }
{
    let packed = source.packed;
    let bit_len = packed.packing.bit_len;
    match source.mask {
        Mask::Absent => packed.inject_bits(None, bit_pos, cut_out),
        Mask::Plain(mask) => {
            masks::apply_bit_mask(cut_out, mask, Kept::UnderZeros, bit_len, bit_pos);
            packed.inject_bits(Some(mask), bit_pos, cut_out);
        }
        Mask::Condensed(mask) => {
            masks::apply_bit_mask(cut_out, mask, Kept::UnderZeros, bit_len, bit_pos);
            condensed::apply_condensed_mask_packing(packed.data, mask, bit_pos, cut_out);
        }
    }
}

// Turns a cut-out to its ordered form, puts a source into it, and turns it back.
pub fn write_cut_out(cut_out: &mut [u8], byte_order: ByteOrder, source: Source, bit_pos: usize)
    requires cut_out_len_bound { length cut_out.old ≤ 65535 }
    requires bit_len_bound { bit_pos + source.packed.packing.bit_len.0 ≤ 8 * length cut_out.old }
    ensures { cut_out.new ≡ ordered byte_order (put (source_of source.entry) bit_pos (ordered byte_order cut_out.old)) }
{
    order::normalize_byte_order(cut_out, byte_order);
    put_bits(source, bit_pos, cut_out);
    order::normalize_byte_order(cut_out, byte_order);
}

// Takes the bits that a field owns out of the ordered bytes. The bit position is at most 7, which the caller in `payload` tested.
#[tactic(auto, using(crate::proofs::Cleared::all_cleared), unfolding(crate::specs::CutOut::cleared))]
fn clear_bits(bit_len: BitLength, mask: Mask, bit_pos: usize, cut_out: &mut [u8])
    requires cut_out_len_bound { length cut_out.old ≤ 65535 }
    requires bit_pos_bound { bit_pos ≤ 7 }
    ensures { cut_out.new ≡ cleared (mask_of mask.entry) bit_len.0 bit_pos cut_out.old }
{
    match mask {
        // a short mask repeats its first byte: all ones. A call of its own, since more is made of a mask that the compiler knows
        Mask::Absent => {
            masks::apply_bit_mask(cut_out, b"\xFF", Kept::UnderZeros, bit_len, bit_pos)
        }
        Mask::Plain(mask) | Mask::Condensed(mask) => {
            masks::apply_bit_mask(cut_out, mask, Kept::UnderZeros, bit_len, bit_pos)
        }
    }
}

pub fn clear_cut_out(
    cut_out: &mut [u8],
    byte_order: ByteOrder,
    bit_len: BitLength,
    mask: Mask,
    bit_pos: usize,
)
    requires cut_out_len_bound { length cut_out.old ≤ 65535 }
    requires bit_pos_bound { bit_pos ≤ 7 }
    ensures { cut_out.new ≡ ordered byte_order (cleared (mask_of mask.entry) bit_len.0 bit_pos (ordered byte_order cut_out.old)) }
{
    order::normalize_byte_order(cut_out, byte_order);
    clear_bits(bit_len, mask, bit_pos, cut_out);
    order::normalize_byte_order(cut_out, byte_order);
}
