// Bits gathered through a condensed mask, and bits put to the ones of one.
#![tactic(auto)]

ghost use Rattle.std.specs.Prelude.{◌≡◌, false, min, cond, ◌+◌, ◌*◌, ◌^◌, ◌<◌, ◌≤◌, length, eqb};
ghost use Rattle.kinds.specs.Types.{bytes_for};
ghost use Rattle.order.specs.Order.{ordered};
ghost use Rattle.bits.specs.CodeRuns.{bits_of_run};
ghost use Rattle.bits.specs.Bits.{bit_at, packed, or_bit};
ghost use Rattle.bits.specs.Moves.{from, injected};
ghost use Rattle.condensed.specs.Condensed.{front_bit, ones_below, picked, bits_of, ones_of, condensed_count, condensed_bytes, replacement, replaced};

use bits::Run;
use kinds::{BitLength, ByteCount, ByteOrder, Counts, Lent, SLICE_LIMIT};

// How many ones the bytes have. They are so few that the sum does not wrap.
fn ones_in(bytes: &[u8]) -> u32
    requires { length bytes.now ≤ 65535 }
    ensures { result ≡ ones_of bytes.now }
{
    let mut total: u32 = 0;
    for byte in bytes {
        total += byte.count_ones();
    }
    total
}

// How many ones a mask of any length has, and no more than so many, since a sum of all could wrap.
fn ones_up_to(mask: &[u8], most: BitLength) -> BitLength
    ensures { result.0 ≡ min most.0 (ones_of mask.now) }
{
    let mut count = 0;
    for byte in mask {
        count = most.bits().min(count + byte.count_ones() as usize);
    }
    BitLength(count as u32)
}

// How many ones the mask has, all of its bytes counted, and no more than so many. What a call is lent is short enough for the plain sum,
// which is the faster one.
pub fn count_mask_ones(mask: &[u8], most: BitLength) -> BitLength
    ensures { result.0 ≡ min most.0 (ones_of mask.now) }
{
    if SLICE_LIMIT < mask.len() {
        return ones_up_to(mask, most);
    }
    BitLength(most.number().min(ones_in(mask)))
}

// Bit i of a mask that is indexed from its front, as it meets so many bytes.
#[tactic(auto, using(crate::proofs::Gather::front_bit_code, crate::proofs::Gather::front_bit_out))]
fn front_bit_at(mask: &[u8], field_bytes: ByteCount, i: usize) -> u8
    requires { i < 8 * field_bytes.0 }
    ensures { result ≡ front_bit mask.now field_bytes.0 i }
{
    let byte = field_bytes.bytes() - kinds::byte_from_last(i) - 1;
    if byte < mask.len() {
        return bits::bit_of(mask[byte], i);
    }
    0
}

// How many ones of the mask a field of so many bits meets. A loop over bits goes by their index.
#[tactic(auto, using(crate::proofs::Size::bits_front, crate::proofs::Ones::ones_below_next), unfolding(crate::specs::Condensed::ones_below))]
fn count_met_ones(bit_mask: &[u8], bit_len: BitLength) -> BitLength
    ensures { result.0 ≡ ones_below (front_bit bit_mask.now (bytes_for bit_len.0)) bit_len.0 }
{
    let field_bytes = bit_len.byte_count();
    let mut count: u32 = 0;
    for i in 0..bit_len.bits() {
        count += front_bit_at(bit_mask, field_bytes, i) as u32;
    }
    BitLength(count)
}

// How many bits and how many bytes a condensed reading gives of a field of so many bits. Nothing is read of the field.
#[tactic(auto, using(crate::proofs::Size::dropped_is, crate::proofs::Size::kept_is))]
pub fn condensed_size(bit_mask: &[u8], bit_len: BitLength) -> Counts
    ensures bit_count_value { result.bit_count.0 ≡ condensed_count bit_mask.now bit_len.0 }
    ensures byte_count_value { result.byte_count.0 ≡ condensed_bytes bit_mask.now bit_len.0 }
{
    let bit_count = count_mask_ones(bit_mask, bit_len);
    let result_byte_count = bit_count.byte_count().bytes();
    let filled = count_met_ones(bit_mask, bit_len).byte_count().bytes();
    let byte_count = if filled < result_byte_count {
        ByteCount(result_byte_count - filled)
    } else {
        ByteCount(result_byte_count)
    };
    Counts {
        bit_count,
        byte_count,
    }
}

// Where the mask bit is one, puts a bit behind the count that are there, if there is room. Answers how many are gathered.
#[tactic(auto, using(bits::proofs::Steps::or_bit_out))]
fn gather_bit(result_bytes: &mut [u8], count: BitLength, mask_bit: u8, bit_value: u8) -> BitLength
    requires { count.0 + 1 < 2 ^ 32 }
    ensures result_value { result.0 ≡ cond (eqb mask_bit 1) (count.0 + 1) count.0 }
    ensures result_bytes_after { result_bytes.new ≡ cond (eqb mask_bit 1) (or_bit false result_bytes.old count.0 bit_value) result_bytes.old }
{
    if mask_bit != 1 {
        return count;
    }
    let next = count.bits();
    if kinds::byte_from_last(next) < result_bytes.len() {
        bits::set_bit_at(result_bytes, next, bit_value, false);
    }
    count.one_more()
}

// Gathers the bits of a field that a condensed mask picks, lowest first and right-aligned, as far as the result has room.
// Answers how many the mask picks. A loop over bits goes by their index.
#[tactic(auto, using(crate::proofs::Gather::many_none, crate::proofs::Gather::bytes_none, crate::proofs::Gather::many_more, crate::proofs::Gather::bytes_more, bits::proofs::Bytes::bit_at_lt))]
pub fn gather_bits(bit_mask: &[u8], field: Run, result_bytes: &mut [u8]) -> BitLength
    ensures result_value { result.0 ≡ length (picked bit_mask.now field.entry.bit_len.0 (bits_of_run field.entry)) }
    ensures result_bytes_after { result_bytes.new ≡ packed (length result_bytes.old) (bits_of (picked bit_mask.now field.entry.bit_len.0 (bits_of_run field.entry))) }
{
    bits::zero(result_bytes);
    let field_bytes = field.bit_len.byte_count();
    let mut count = BitLength(0);
    for i in 0..field.bit_len.bits() {
        let mask_bit = front_bit_at(bit_mask, field_bytes, i);
        count = gather_bit(result_bytes, count, mask_bit, field.bit_at(i));
    }
    count
}

// What replaces a one of the mask that has so many ones below it.
#[tactic(auto, using(crate::proofs::Replaced::replacement_in, crate::proofs::Replaced::replacement_out))]
fn replacement_bit(data: Lent, data_bit_idx: usize) -> u8
    ensures { result ≡ replacement «data».entry.bytes.now data_bit_idx }
{
    if data_bit_idx < ByteCount(data.bytes.len()).bit_end() {
        return bits::bit_at(data.bytes, data_bit_idx);
    }
    1
}

// ORs the mask into the destination from a bit position on, each one replaced in turn by a bit of the data. The bounds of the destination
// are asked again, as those of `apply_bit_mask` in masks are.
#[tactic(auto, using(crate::proofs::Ones::ones_below_next, bits::proofs::Bytes::bit_at_lt, crate::proofs::Replaced::bits_replaced, crate::proofs::Replaced::replaced_code, bits::proofs::Steps::injected_none, bits::proofs::Steps::injected_step), unfolding(crate::specs::Condensed::ones_below))]
pub fn apply_condensed_mask_packing(data: Lent, mask: &[u8], bit_pos: usize, dst_data: &mut [u8])
    requires dst_data_len_bound { length dst_data.old ≤ 65535 }
    requires mask_bound { bit_pos + 8 * length mask.now ≤ 8 * length dst_data.old }
    ensures { dst_data.new ≡ injected (8 * length mask.now) bit_pos (replaced mask.now «data».entry.bytes.now) dst_data.old }
{
    let mut data_bit_idx = 0;
    for mask_bit_idx in 0..ByteCount(mask.len()).bit_end() {
        let mask_bit = bits::bit_at(mask, mask_bit_idx);
        let data_bit = replacement_bit(data, data_bit_idx);
        bits::set_bit_at(dst_data, bit_pos + mask_bit_idx, mask_bit & data_bit, false);
        data_bit_idx += mask_bit as usize;
    }
}
