// Clear of a described field.
ghost use Rattle.field.specs.Field.{field_of};
ghost use Rattle.payload.specs.CodeHeld.{held, Clears};
ghost use Rattle.clear.specs.Clear.{field_clearing};
ghost use Rattle.described.specs.Described.{described};

use coded::DiagCodedType;
use field::Field;
use kinds::{ByteCount, Failure, Position};
use payload::Payload;

// It begins as the other two calls do, which wrong edits keep apart.
pub fn clear_described(
    coded_type: DiagCodedType,
    store: &[u8],
    payload: &mut Payload,
    at: Position,
) -> Result<(), Failure>
    ensures { Clears result payload.old payload.new (described coded_type store.now (λ t. field_clearing (field_of t store.now) (held payload.old) at.byte_pos at.bit_pos)) }
{
    field::validate_description(coded_type, ByteCount(store.len()))?;
    codec::clear_field(Field::of(coded_type, store), payload, at)
}
