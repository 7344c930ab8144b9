// Each variant's writing: what its source is, after what it refuses.
ghost use Rattle.std.specs.Prelude.{◌≡◌, cond, ◌≤◌};
ghost use Rattle.kinds.specs.Types.{is_unicode_type};
ghost use Rattle.masks.specs.Mask.{no_mask, mask_of};
ghost use Rattle.pack.specs.Source.{bytes_source, terminated};
ghost use Rattle.pack.specs.CodePacking.{packed_source, source_of};
ghost use Rattle.payload.specs.CodeHeld.{held, Writes};
ghost use Rattle.payload.specs.Writing.{writing};
ghost use Rattle.writers.specs.Shapes.{standard_encoded, leading_encoded, min_max_encoded, param_encoded};

use coded::Termination;
use field::Field;
use kinds::{BitLength, ByteCount, ByteOrder, Failure, Lent, Position, Refusal};
use masks::Mask;
use pack::{PackedData, Source};
use payload::Payload;

// The field's mask and the input are lent for one lifetime, since one source holds both.
#[tactic(auto, using(crate::proofs::Shown::standard_shown))]
pub fn encode_standard_len<'a>(
    field: Field<'a>,
    bit_len: BitLength,
    input: Lent<'a>,
    payload: &mut Payload,
    at: Position,
) -> Result<(), Failure>
    ensures { Writes result payload.old payload.new (standard_encoded field.entry.byte_order input.entry.bytes.now (held payload.old) at.byte_pos at.bit_pos field.entry.base_datatype bit_len.0 (mask_of field.entry.mask)) }
{
    let base_datatype = field.base_datatype;
    lengths::validate_standard(base_datatype, bit_len, field.mask)?;
    let mask = lengths::effective(field.mask);
    let given = ByteCount(input.bytes.len());
    let packing = pack::pack_data(bit_len, mask, given, base_datatype.is_byte_type());
    let data = Lent {
        bytes: &input.bytes[..packing.data_len.bytes()],
    };
    let packed = PackedData { packing, data };
    let source = Source { packed, mask };
    payload.write_source(source, field.byte_order, at)
}

// Whole bytes have no mask.
fn unmasked<'a>(packed: PackedData<'a>) -> Source<'a>
    ensures { source_of result ≡ packed_source packed.entry.packing no_mask packed.entry.«data».bytes.now }
{
    Source {
        packed,
        mask: Mask::Absent,
    }
}

// The length field, big-endian, and then the input.
#[tactic(auto, using(crate::proofs::Shown::leading_shown))]
pub fn encode_leading_length(
    field: Field,
    bit_len: BitLength,
    input: Lent,
    payload: &mut Payload,
    at: Position,
) -> Result<(), Failure>
    ensures { Writes result payload.old payload.new (leading_encoded field.entry.byte_order input.entry.bytes.now (held payload.old) at.byte_pos at.bit_pos bit_len.0) }
{
    let count = input.bytes.len();
    let data_len = ByteCount(count);
    lengths::validate_leading_length(bit_len, data_len)?;
    let total = ByteCount(bit_len.byte_count().bytes() + count);
    let packing = pack::frame(total, count, data_len, 0, ByteCount(0));
    let packed = PackedData {
        packing,
        data: input,
    };
    payload.write_source(unmasked(packed), field.byte_order, at)
}

// The input, and then so many bytes of a terminator. Six parameters: of a field it takes the order alone, so that it says of nothing else.
#[tactic(auto, using(crate::proofs::Shown::terminated_shown))]
fn write_terminated(
    tail: u8,
    tail_len: ByteCount,
    input: Lent,
    byte_order: ByteOrder,
    payload: &mut Payload,
    at: Position,
) -> Result<(), Failure>
    requires tail_len_bound { tail_len.0 ≤ 2 }
    ensures { Writes result payload.old payload.new (writing byte_order (bytes_source (terminated input.entry.bytes.now tail_len.0 tail)) (held payload.old) at.byte_pos at.bit_pos) }
{
    let data_len = ByteCount(input.bytes.len());
    let total = ByteCount(data_len.bytes() + tail_len.bytes());
    let packing = pack::frame(total, 0, data_len, tail, tail_len);
    let packed = PackedData {
        packing,
        data: input,
    };
    payload.write_source(unmasked(packed), byte_order, at)
}

// A terminator is as long as a character.
fn terminator_len(is_unicode: bool) -> ByteCount
    ensures { result.0 ≡ cond is_unicode 2 1 }
{
    ByteCount(if is_unicode { 2 } else { 1 })
}

pub fn encode_min_max_len(
    field: Field,
    termination: Termination,
    input: Lent,
    payload: &mut Payload,
    at: Position,
) -> Result<(), Failure>
    ensures { Writes result payload.old payload.new (min_max_encoded field.entry.byte_order input.entry.bytes.now (held payload.old) at.byte_pos at.bit_pos (is_unicode_type field.entry.base_datatype) termination) }
{
    let is_unicode = field.base_datatype.is_unicode();
    let (tail, tail_len) = match termination {
        Termination::EndOfPdu if input.bytes.is_empty() => {
            return Err(Failure::Refused(Refusal::EmptyUntilEndOfPdu));
        }
        Termination::EndOfPdu => (0, ByteCount(0)),
        Termination::Zero => (0, terminator_len(is_unicode)),
        Termination::HexFF => (0xFF, terminator_len(is_unicode)),
    };
    write_terminated(tail, tail_len, input, field.byte_order, payload, at)
}

pub fn encode_param_len(
    field: Field,
    input: Lent,
    payload: &mut Payload,
    at: Position,
) -> Result<(), Failure>
    ensures { Writes result payload.old payload.new (param_encoded field.entry.byte_order input.entry.bytes.now (held payload.old) at.byte_pos at.bit_pos) }
{
    if input.bytes.is_empty() {
        return Ok(());
    }
    write_terminated(0, ByteCount(0), input, field.byte_order, payload, at)
}
