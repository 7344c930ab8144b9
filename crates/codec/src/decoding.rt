// Decode of a field: 20, and then its variant's reading.
ghost use Rattle.std.specs.Prelude.{◌≡◌};
ghost use Rattle.kinds.specs.Answers.{report_of_reading};
ghost use Rattle.kinds.specs.Outcomes.{answer};
ghost use Rattle.field.specs.Field.{said_of};
ghost use Rattle.readers.specs.Finding.{decode_of};

use field::{Field, Shape};
use kinds::{Counts, Failure, Lent, Position, Refusal};
use readers::{decode_leading_len, decode_min_max_len, decode_standard_len};

// Reads a field at a byte position and a bit position into the output.
#[tactic(auto, unfolding(unpack::specs::Found::read_answer))]
pub fn decode_field(
    field: Field,
    payload: Lent,
    at: Position,
    output: &mut [u8],
) -> Result<Counts, Failure>
    ensures { answer (report_of_reading result) output.new ≡ decode_of (said_of field.entry) payload.entry.bytes.now at.byte_pos at.bit_pos output.old }
{
    field.base_datatype.validate_bit_pos(at.bit_pos)?;
    match field.shape {
        Shape::Leading(bits) => decode_leading_len(field, bits, payload, at.byte_pos, output),
        Shape::MinMax(limits) => decode_min_max_len(field, limits, payload, at.byte_pos, output),
        Shape::Standard(bits) => decode_standard_len(field, bits, payload, at, output),
        Shape::Param => Err(Failure::Refused(Refusal::RuntimeLengthNeeded)),
    }
}
