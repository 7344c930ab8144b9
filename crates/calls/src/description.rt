// What a call is told of its field: a coded type, or the record of one.
ghost use Rattle.std.specs.Prelude.{◌≡◌, OnOk};

use coded::DiagCodedType;
use field::Sizes;
use kinds::{ByteCount, Refusal};

pub trait Description {
    ghost use Rattle.std.specs.Prelude.{◌≡◌, OnOk};
    ghost use Rattle.kinds.specs.Outcomes.{outcome_of};
    ghost use Rattle.field.specs.Refusals.{Fit};
    ghost use Rattle.calls.specs.Calls.{Description, coded_by};

    ghost says: { Self → Description };

    // 43 and 44 of the call, and 42 of a record; the coded type's own come after.
    fn coded(self, sizes: Sizes) -> Result<DiagCodedType, Refusal>
        ensures result_value { outcome_of result ≡ coded_by (says self) sizes.store_len.0 sizes.first_len.0 sizes.second_len.0 sizes.used }
        ensures fits { OnOk result (Fit sizes) };
}

impl Description for DiagCodedType {
    ghost use Rattle.calls.specs.Calls.{by_type};

    ghost says = { λ coded_type. by_type coded_type };

    fn coded(self, sizes: Sizes) -> Result<DiagCodedType, Refusal> {
        field::validate_slices(ByteCount(0), sizes)?;
        Ok(self)
    }
}

// The bytes of a record.
impl<'a> Description for &'a [u8] {
    ghost use Rattle.calls.specs.Calls.{by_record};

    ghost says = { λ bytes. by_record bytes.now };

    fn coded(self, sizes: Sizes) -> Result<DiagCodedType, Refusal> {
        record::coded_by_record(self, sizes)
    }
}

// The same of a record that stands in an array.
impl<'a, const N: usize> Description for &'a [u8; N] {
    ghost use Rattle.calls.specs.Calls.{by_record};

    ghost says = { λ bytes. by_record bytes.now };

    fn coded(self, sizes: Sizes) -> Result<DiagCodedType, Refusal> {
        let bytes: &[u8] = self;
        bytes.coded(sizes)
    }
}
