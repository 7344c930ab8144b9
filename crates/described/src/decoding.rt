// Decode of a described field.
ghost use Rattle.std.specs.Prelude.{◌≡◌};
ghost use Rattle.kinds.specs.Answers.{report_of_reading};
ghost use Rattle.kinds.specs.Outcomes.{answer};
ghost use Rattle.field.specs.Field.{field_of};
ghost use Rattle.unpack.specs.Found.{read_answer};
ghost use Rattle.readers.specs.Finding.{field_finding};
ghost use Rattle.described.specs.Described.{described};

use coded::DiagCodedType;
use field::Field;
use kinds::{ByteCount, Counts, Failure, Lent, Position};

// It begins as the other calls do, and is one of its own, since a wrong edit is of one call alone.
#[tactic(auto, unfolding(unpack::specs::Found::read_answer))]
pub fn decode_described(
    coded_type: DiagCodedType,
    store: &[u8],
    uds_payload: Lent,
    at: Position,
    output: &mut [u8],
) -> Result<Counts, Failure>
    ensures { answer (report_of_reading result) output.new ≡ read_answer output.old (described coded_type store.now (λ t. field_finding (field_of t store.now) uds_payload.entry.bytes.now at.byte_pos at.bit_pos)) }
{
    field::validate_description(coded_type, ByteCount(store.len()))?;
    codec::decode_field(Field::of(coded_type, store), uds_payload, at, output)
}
