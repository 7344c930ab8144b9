// Encode of a field: 20, and then its variant's writing.
ghost use Rattle.field.specs.Field.{said_of};
ghost use Rattle.payload.specs.CodeHeld.{held, Writes};
ghost use Rattle.writers.specs.Shapes.{field_encoding};

use field::{Field, Shape};
use kinds::{Failure, Lent, Position};
use payload::Payload;
use writers::{encode_leading_length, encode_min_max_len, encode_param_len, encode_standard_len};

// Writes the input as a field at a byte position and a bit position of the payload, which grows in its slice where the field
// ends past its used length.
pub fn encode_field(
    field: Field,
    input: Lent,
    payload: &mut Payload,
    at: Position,
) -> Result<(), Failure>
    ensures { Writes result payload.old payload.new (field_encoding (said_of field.entry) input.entry.bytes.now (held payload.old) at.byte_pos at.bit_pos) }
{
    field.base_datatype.validate_bit_pos(at.bit_pos)?;
    match field.shape {
        Shape::Leading(bits) => encode_leading_length(field, bits, input, payload, at),
        Shape::MinMax(limits) => encode_min_max_len(field, limits.termination, input, payload, at),
        Shape::Standard(bits) => encode_standard_len(field, bits, input, payload, at),
        Shape::Param => encode_param_len(field, input, payload, at),
    }
}
