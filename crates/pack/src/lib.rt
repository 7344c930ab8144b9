// The source of a write: bits of the input and of what stands before and after it, read by index. Nothing is copied.
#![tactic(auto)]

mod source; // source.rt: data with how they are packed, and a source of them with its mask

ghost use Rattle.std.specs.Prelude.{◌≡◌, cond, ◌+◌, ◌*◌, ◌%◌, ◌^◌, ◌<◌, ◌≤◌, length, eqb};
ghost use Rattle.bits.specs.Moves.{injected};
ghost use Rattle.masks.specs.Mask.{mask_of, plain_of};
ghost use Rattle.pack.specs.Source.{size_under};
ghost use Rattle.pack.specs.CodePacking.{framed_bit, packed_bit, packed_bits_under, framing, aligning, packing};

use kinds::{BitLength, ByteCount, Lent};
use masks::Mask;
pub use source::{PackedData, Source};

// How data are packed: the bits of a head, the data, which are the first `data_len` bytes of the input, and some equal bytes
// as a tail. Of all this `bit_len` bits are written, from the lowest, and of the last byte no more than `last_bits`.
#[derive(Clone, Copy, Debug, PartialEq, Eq)]
pub struct Packing {
    pub bit_len: BitLength,
    pub head: usize,
    pub data_len: ByteCount,
    pub tail: u8,
    pub tail_len: ByteCount,
    pub last_bits: BitLength,
}

impl PackedData<'_> {
    // Bit i of the head, the data and the tail.
    #[tactic(auto, using(bits::proofs::Stores::bit_code), unfolding(crate::specs::CodePacking::framed_bit))]
    fn framed_bit(self, i: usize) -> u8
        ensures { result ≡ framed_bit self.entry.packing self.entry.data.bytes.now i }
    {
        let after = self.packing.tail_len.bit_end();
        if i < after {
            return bits::bit_of(self.packing.tail, i);
        }
        let data = self.data.bytes;
        let end = ByteCount(data.len()).bit_end();
        if i - after < end {
            return bits::bit_at(data, i - after);
        }
        let above = i - after - end;
        if above < 64 {
            return ((self.packing.head >> above) & 1) as u8;
        }
        0
    }

    // Bit i of the packed data.
    #[tactic(auto, unfolding(crate::specs::CodePacking::packed_bit))]
    fn packed_bit(self, i: usize) -> u8
        ensures { result ≡ packed_bit self.entry.packing self.entry.data.bytes.now i }
    {
        if i < 8 && self.packing.last_bits.bits() <= i {
            return 0;
        }
        self.framed_bit(i)
    }

    // Bit i of the packed data, and under a plain mask that bit or zero.
    #[tactic(auto, using(crate::proofs::Packed::under_plain))]
    fn source_bit(self, mask: Option<&[u8]>, i: usize) -> u8
        ensures { result ≡ packed_bits_under (plain_of mask.entry) self.entry.packing self.entry.data.bytes.now i }
    {
        let bit_value = self.packed_bit(i);
        match mask {
            Some(plain) => bit_value & masks::mask_bit_at(plain, i),
            None => bit_value,
        }
    }

    // ORs the packed data into the destination from a bit position on, in a loop over the index of their bits. The bounds of the destination
    // are asked again, as those of `apply_bit_mask` in masks are.
    #[tactic(auto, using(crate::proofs::Packed::bits_packed, bits::proofs::Steps::injected_none, bits::proofs::Steps::injected_step))]
    pub fn inject_bits(self, mask: Option<&[u8]>, bit_pos: usize, dst_data: &mut [u8])
        requires dst_data_len_bound { length dst_data.old ≤ 65535 }
        requires bit_len_bound { bit_pos + self.packing.bit_len.0 ≤ 8 * length dst_data.old }
        ensures { dst_data.new ≡ injected self.entry.packing.bit_len.0 bit_pos (packed_bits_under (plain_of mask.entry) self.entry.packing self.entry.data.bytes.now) dst_data.old }
    {
        for i in 0..self.packing.bit_len.bits() {
            let bit_value = self.source_bit(mask, i);
            bits::set_bit_at(dst_data, bit_pos + i, bit_value, false);
        }
    }
}

// How many bits of the last byte are kept of so many bits: no more than fill it.
fn bits_of_last_byte(bit_len: BitLength) -> BitLength
    ensures { result.0 ≡ cond (eqb (bit_len.0 % 8) 0) 8 (bit_len.0 % 8) }
{
    match bit_len.remainder() {
        BitLength(0) => BitLength(8),
        remainder => remainder,
    }
}

// So many bytes of data for `bit_len` bits: the last ones for numeric types, and the first for byte types.
fn align(bit_len: BitLength, data_len: ByteCount, byte_type: bool) -> Packing
    ensures { result ≡ aligning byte_type bit_len.0 data_len.0 }
{
    let given = data_len.bytes();
    let needed = bit_len.byte_count().bytes();
    let (taken, zeros) = if byte_type {
        (given.min(needed), needed.saturating_sub(given))
    } else {
        (given, 0)
    };
    Packing {
        bit_len,
        head: 0,
        data_len: ByteCount(taken),
        tail: 0,
        tail_len: ByteCount(zeros),
        last_bits: bits_of_last_byte(bit_len),
    }
}

// Whole bytes, so many in all: the bits of a head, the data, and a tail of equal bytes.
pub fn frame(
    byte_count: ByteCount,
    head: usize,
    data_len: ByteCount,
    tail: u8,
    tail_len: ByteCount,
) -> Packing
    requires { byte_count.0 < 2 ^ 29 }
    ensures { result ≡ framing (8 * byte_count.0) head data_len.0 tail tail_len.0 }
{
    let bit_len = byte_count.bit_length();
    Packing {
        bit_len,
        head,
        data_len,
        tail,
        tail_len,
        last_bits: BitLength(8),
    }
}

// How a field of `bit_len` bits takes so many bytes of data. A condensed mask takes them as they are.
pub fn pack_data(bit_len: BitLength, mask: Mask, data_len: ByteCount, byte_type: bool) -> Packing
    requires { size_under (mask_of mask) bit_len.0 < 2 ^ 32 }
    ensures { result ≡ packing (mask_of mask.entry) byte_type bit_len.0 data_len.0 }
{
    match mask {
        Mask::Absent | Mask::Plain(_) => align(bit_len, data_len, byte_type),
        Mask::Condensed(condensed) => {
            let byte_count = ByteCount(condensed.len());
            frame(byte_count, 0, data_len, 0, ByteCount(0))
        }
    }
}
