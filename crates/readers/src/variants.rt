// Each variant's reading: where its bits are, and what is taken from there.
ghost use Rattle.std.specs.Prelude.{ℕ, ◌≡◌, ◌<◌, ◌≤◌, length, get_or};
ghost use Rattle.kinds.specs.Answers.{report_of_reading};
ghost use Rattle.kinds.specs.Outcomes.{answer};
ghost use Rattle.masks.specs.Mask.{no_mask, mask_of};
ghost use Rattle.unpack.specs.Found.{read_answer};
ghost use Rattle.readers.specs.Finding.{standard_finding, leading_finding, min_max_finding};
ghost use Rattle.readers.specs.CodeReading.{read_bits};

use coded::MinMaxLengthType;
use field::Field;
use kinds::{BitLength, ByteCount, ByteOrder, Counts, Failure, Lent, PosInfo, Position};
use masks::Mask;

// 30, and then the bits at a place. It takes no `Field`, since data bytes have no mask, whatever the field has.
#[tactic(auto, using(crate::proofs::Places::no_bits, crate::proofs::Places::too_short_lem, crate::proofs::Places::in_payload), unfolding(unpack::specs::Found::read_answer))]
fn unpack_at(
    pos_info: PosInfo,
    bit_pos: usize,
    mask: Mask,
    payload: Lent,
    byte_order: ByteOrder,
    output: &mut [u8],
) -> Result<Counts, Failure>
    ensures { answer (report_of_reading result) output.new ≡ read_answer output.old (read_bits byte_order pos_info.bit_len.0 (mask_of mask.entry) payload.entry.bytes.now pos_info.start_pos bit_pos) }
{
    let PosInfo { bit_len, start_pos } = pos_info;
    // nothing to extract: with limits and a minimum of 0 that may be past the payload
    if bit_len.bits() == 0 {
        return Ok(Counts {
            bit_count: BitLength(0),
            byte_count: ByteCount(0),
        });
    }
    let end_pos = kinds::saturating_add(start_pos, bit_len.byte_count().bytes());
    if payload.bytes.len() < end_pos {
        return Err(Failure::NotEnoughData {
            expected: end_pos,
            actual: payload.bytes.len(),
        });
    }
    let data = Lent {
        bytes: &payload.bytes[start_pos..end_pos],
    };
    unpack::unpack_data(bit_len, bit_pos, mask, data, byte_order, output)
}

// Data bytes have no mask, and bit position 0: they are of a byte type, for which 20 refuses any other. That each of the payload is
// below 256 is known of a slice, and not of what is lent with its length checked.
fn unpack_data_bytes(
    pos_info: PosInfo,
    payload: &[u8],
    byte_order: ByteOrder,
    output: &mut [u8],
) -> Result<Counts, Failure>
    requires { length payload.now ≤ 65535 }
    ensures result_value { answer (report_of_reading result) output.new ≡ read_answer output.old (read_bits byte_order pos_info.bit_len.0 no_mask payload.now pos_info.start_pos 0) }
    ensures payload_fits { (j : ℕ) → get_or payload.now j 0 < 256 }
{
    let payload = Lent { bytes: payload };
    unpack_at(pos_info, 0, Mask::Absent, payload, byte_order, output)
}

#[tactic(auto, using(crate::proofs::Findings::leading_failed, crate::proofs::Findings::leading_found))]
pub fn decode_leading_len(
    field: Field,
    bits: BitLength,
    payload: Lent,
    byte_pos: usize,
    output: &mut [u8],
) -> Result<Counts, Failure>
    ensures { answer (report_of_reading result) output.new ≡ read_answer output.old (leading_finding field.entry.base_datatype field.entry.byte_order bits.0 payload.entry.bytes.now byte_pos) }
{
    let byte_order = field.byte_order;
    let pos_info = length_field::pos_info_leading_len(
        field.base_datatype,
        payload,
        byte_pos,
        byte_order,
        bits,
    )?;
    unpack_data_bytes(pos_info, payload.bytes, byte_order, output)
}

#[tactic(auto, using(crate::proofs::Findings::min_max_failed, crate::proofs::Findings::min_max_found))]
pub fn decode_min_max_len(
    field: Field,
    limits: MinMaxLengthType,
    payload: Lent,
    byte_pos: usize,
    output: &mut [u8],
) -> Result<Counts, Failure>
    ensures { answer (report_of_reading result) output.new ≡ read_answer output.old (min_max_finding field.entry.base_datatype field.entry.byte_order limits payload.entry.bytes.now byte_pos) }
{
    let is_unicode = field.base_datatype.is_unicode();
    let pos_info = scans::pos_info_min_max_len(is_unicode, payload, byte_pos, limits)?;
    unpack_data_bytes(pos_info, payload.bytes, field.byte_order, output)
}

// A field whose length the description tells is where it says.
#[tactic(auto, using(crate::proofs::Findings::standard_found), unfolding(unpack::specs::Found::read_answer))]
pub fn decode_standard_len(
    field: Field,
    bit_length: BitLength,
    payload: Lent,
    at: Position,
    output: &mut [u8],
) -> Result<Counts, Failure>
    ensures { answer (report_of_reading result) output.new ≡ read_answer output.old (standard_finding field.entry.base_datatype field.entry.byte_order bit_length.0 (mask_of field.entry.mask) payload.entry.bytes.now at.byte_pos at.bit_pos) }
{
    field.base_datatype.validate_bit_len(bit_length)?;
    let pos_info = PosInfo {
        bit_len: bit_length,
        start_pos: at.byte_pos,
    };
    unpack_at(
        pos_info,
        at.bit_pos,
        field.mask,
        payload,
        field.byte_order,
        output,
    )
}
