// What a call that takes a record refuses before it has a coded type.
ghost use Rattle.std.specs.Prelude.{◌≡◌, OnOk};
ghost use Rattle.kinds.specs.Outcomes.{outcome_of};
ghost use Rattle.field.specs.Refusals.{Fit};
ghost use Rattle.record.specs.Recorded.{coded_by_record};

use super::parsing::parse;
use coded::DiagCodedType;
use field::Sizes;
use kinds::{ByteCount, Refusal};

// 43 and 44 of the call, then 42 of the record; the coded type's own come after.
pub fn coded_by_record(record: &[u8], sizes: Sizes) -> Result<DiagCodedType, Refusal>
    ensures result_value { outcome_of result ≡ coded_by_record «record».now sizes.store_len.0 sizes.first_len.0 sizes.second_len.0 sizes.used }
    ensures fits { OnOk result (Fit sizes) }
{
    field::validate_slices(ByteCount(record.len()), sizes)?;
    parse(record).ok_or(Refusal::MalformedRecord)
}
