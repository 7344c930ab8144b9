// So many bytes of a payload, handed back as a part of it.
#![tactic(auto)]

ghost use Rattle.std.specs.Prelude.{◌≡◌, IfOk};
ghost use Rattle.kinds.specs.Answers.{report_of_part};
ghost use Rattle.kinds.specs.Outcomes.{answer};
ghost use Rattle.parts.specs.Part.{runtime_part, part_answer, part_in, LiesIn, bytes_or_none, place_or_start};

use kinds::{ByteCount, Failure, Lent};

// The bytes of the payload, where they are in it.
pub fn part<'a>(
    uds_payload: Lent<'a>,
    byte_pos: usize,
    byte_count: ByteCount,
) -> Result<Lent<'a>, Failure>
    ensures result_value { answer (report_of_part result) (part_in result) ≡ part_answer (runtime_part uds_payload.entry.bytes.now byte_pos byte_count.0) }
    ensures ref_ptr_value { IfOk result (LiesIn byte_pos uds_payload.entry.bytes) }
{
    let count = byte_count.bytes();
    if count == 0 {
        return Ok(Lent {
            bytes: &uds_payload.bytes[..0],
        });
    }
    let end_pos = kinds::saturating_add(byte_pos, count);
    if uds_payload.bytes.len() < end_pos {
        return Err(Failure::NotEnoughData {
            expected: end_pos,
            actual: uds_payload.bytes.len(),
        });
    }
    Ok(Lent {
        bytes: &uds_payload.bytes[byte_pos..end_pos],
    })
}

// The part that a call handed back. A refusal hands back none: then the empty part, at the start of what was lent.
pub fn or_empty<'a>(given: Option<&'a [u8]>, lent: &'a [u8]) -> &'a [u8]
    ensures result_value { result.now ≡ bytes_or_none given.entry }
    ensures ref_ptr_value { result.ref_ptr ≡ place_or_start given.entry lent.entry }
{
    given.unwrap_or(&lent[..0])
}
