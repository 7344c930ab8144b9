// Encode of a described field.
ghost use Rattle.field.specs.Field.{field_of};
ghost use Rattle.payload.specs.CodeHeld.{held, Writes};
ghost use Rattle.writers.specs.Shapes.{field_encoding};
ghost use Rattle.described.specs.Described.{described};

use coded::DiagCodedType;
use field::Field;
use kinds::{ByteCount, Failure, Lent, Position};
use payload::Payload;

// It begins as the other calls do, and is one of its own, since a wrong edit is of one call alone.
pub fn encode_described(
    coded_type: DiagCodedType,
    store: &[u8],
    input_data: Lent,
    payload: &mut Payload,
    at: Position,
) -> Result<(), Failure>
    ensures { Writes result payload.old payload.new (described coded_type store.now (λ t. field_encoding (field_of t store.now) input_data.entry.bytes.now (held payload.old) at.byte_pos at.bit_pos)) }
{
    field::validate_description(coded_type, ByteCount(store.len()))?;
    codec::encode_field(Field::of(coded_type, store), input_data, payload, at)
}
