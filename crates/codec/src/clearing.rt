// Clear of a field: 39 of every variant but Standard.
ghost use Rattle.field.specs.Field.{said_of};
ghost use Rattle.payload.specs.CodeHeld.{held, Clears};
ghost use Rattle.clear.specs.Clear.{field_clearing};

use clear::clear_standard_len;
use field::{Field, Shape};
use kinds::{Failure, Position, Refusal};
use payload::Payload;

// Takes a numeric field of a given length back to zero: its own bits, and no others.
pub fn clear_field(field: Field, payload: &mut Payload, at: Position) -> Result<(), Failure>
    ensures { Clears result payload.old payload.new (field_clearing (said_of field.entry) (held payload.old) at.byte_pos at.bit_pos) }
{
    match field.shape {
        Shape::Standard(bits) => clear_standard_len(field, bits, payload, at),
        Shape::Leading(_) | Shape::MinMax(_) | Shape::Param => {
            Err(Failure::Refused(Refusal::NotClearable))
        }
    }
}
