// Parts of what was lent: so many bytes of a payload, and the name of a field's length key.
ghost use Rattle.std.specs.Prelude.{◌≡◌, IfOk};
ghost use Rattle.kinds.specs.Answers.{report_of_part};
ghost use Rattle.kinds.specs.Outcomes.{answer};
ghost use Rattle.parts.specs.Part.{part_in, LiesIn};
ghost use Rattle.calls.specs.Calls.{runtime_read, name_answer, key_name};
ghost use Rattle.calls.specs.Calls.{by_type};
ghost use Rattle.calls.specs.Calls.{outcome_of_name, NameLiesIn};

use super::description::Description;
use coded::DiagCodedType;
use described::part_described;
use field::Sizes;
use kinds::{ByteCount, Failure, Lent, Refusal};

// Hands back so many bytes of the payload as a part of it, unordered.
#[tactic(auto, unfolding(crate::specs::Calls::runtime_read))]
pub fn decode_with_runtime_byte_length<'a, D: Description>(
    description: D,
    store: &[u8],
    uds_payload: &'a [u8],
    byte_pos: usize,
    byte_count: ByteCount,
) -> Result<Lent<'a>, Failure>
    ensures result_value { answer (report_of_part result) (part_in result) ≡ runtime_read (D.says description) store.now uds_payload.now byte_pos byte_count.0 }
    ensures ref_ptr_value { IfOk result (LiesIn byte_pos uds_payload.entry) }
{
    let coded_type = description.coded(Sizes::of(store, uds_payload, b"", 0))?;
    part_described(
        coded_type,
        ByteCount(store.len()),
        Lent { bytes: uds_payload },
        byte_pos,
        byte_count,
    )
}

// The name of the parameter that gives the length, a part of the store. It is empty where there is no name: `length_key_place`
// tells that from an empty name.
#[tactic(auto, unfolding(crate::specs::Calls::key_name, crate::specs::Calls::name_start))]
pub fn length_key_name<'a>(coded_type: DiagCodedType, store: &'a [u8]) -> Result<&'a [u8], Refusal>
    ensures result_value { name_answer (outcome_of_name result) ≡ key_name (by_type coded_type) store.now }
    ensures ref_ptr_value { IfOk result (NameLiesIn coded_type store.entry) }
{
    coded_type.coded(Sizes::of(store, b"", b"", 0))?;
    field::validate_description(coded_type, ByteCount(store.len()))?;
    Ok(field::part_at(store, coded_type.length_key_place()))
}
