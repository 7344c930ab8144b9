// Clear of a field of a given length.
ghost use Rattle.masks.specs.Mask.{mask_of};
ghost use Rattle.payload.specs.CodeHeld.{held, Clears};
ghost use Rattle.clear.specs.Clear.{standard_cleared};

use field::Field;
use kinds::{BitLength, ByteCount, Failure, Position, Refusal};
use payload::Payload;

pub fn clear_standard_len(
    field: Field,
    bit_len: BitLength,
    payload: &mut Payload,
    at: Position,
) -> Result<(), Failure>
    ensures { Clears result payload.old payload.new (standard_cleared field.entry.base_datatype field.entry.byte_order (held payload.old) at.byte_pos at.bit_pos bit_len.0 (mask_of field.entry.mask)) }
{
    let base_datatype = field.base_datatype;
    if base_datatype.is_byte_type() {
        return Err(Failure::Refused(Refusal::NotClearable));
    }
    lengths::validate_standard(base_datatype, bit_len, field.mask)?;
    let mask = lengths::effective(field.mask);
    let packing = pack::pack_data(bit_len, mask, ByteCount(0), false);
    payload.clear_source(packing.bit_len, mask, field.byte_order, at)
}
