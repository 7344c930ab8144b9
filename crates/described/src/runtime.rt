// The part of a payload that a read with a byte count given at run time hands back, of a described field.
ghost use Rattle.std.specs.Prelude.{◌≡◌, length, IfOk};
ghost use Rattle.kinds.specs.Answers.{report_of_part};
ghost use Rattle.kinds.specs.Outcomes.{answer};
ghost use Rattle.parts.specs.Part.{runtime_part, part_answer, part_in, LiesIn};
ghost use Rattle.kinds.specs.Outcomes.{after};
ghost use Rattle.field.specs.Refusals.{description_refusal};

use coded::DiagCodedType;
use kinds::{ByteCount, Failure, Lent};

pub fn part_described<'a>(
    coded_type: DiagCodedType,
    store_len: ByteCount,
    uds_payload: Lent<'a>,
    byte_pos: usize,
    byte_count: ByteCount,
) -> Result<Lent<'a>, Failure>
    ensures result_value { answer (report_of_part result) (part_in result) ≡ part_answer (after (description_refusal coded_type store_len.0) (runtime_part uds_payload.entry.bytes.now byte_pos byte_count.0)) }
    ensures ref_ptr_value { IfOk result (LiesIn byte_pos uds_payload.entry.bytes) }
{
    field::validate_description(coded_type, store_len)?;
    parts::part(uds_payload, byte_pos, byte_count)
}
