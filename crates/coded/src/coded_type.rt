// The coded type: how it is made, and its small getters.
ghost use Rattle.std.specs.Prelude.{◌≡◌, true};
ghost use Rattle.coded.specs.Refusals.{even_limits, coded_type_refusal, made_refusal};
ghost use Rattle.kinds.specs.Outcomes.{outcome_of};
ghost use Rattle.coded.specs.Making.{new_coded_type};
ghost use Rattle.coded.specs.Getters.{bit_len_of, key_place_of};

use super::variants::{DiagCodedTypeVariant, MinMaxLengthType, Place};
use kinds::{BitLength, DataType, Refusal};

#[derive(Clone, Copy, Debug, PartialEq, Eq)]
pub struct DiagCodedType {
    pub base_datatype: DataType,
    pub type_: DiagCodedTypeVariant,
    pub is_high_low_byte_order: bool,
}

// Whether a MinMaxLength has an even minimum and an even maximum, as Unicode2String wants.
fn even_limits(limits: MinMaxLengthType) -> bool
    ensures { result ≡ even_limits limits }
{
    limits.min_length % 2 == 0 && limits.max_length.is_some_and(|most| most % 2 == 0)
}

impl DiagCodedType {
    pub fn new_high_low_byte_order(
        base_datatype: DataType,
        type_: DiagCodedTypeVariant,
    ) -> Result<DiagCodedType, Refusal>
        ensures { outcome_of result ≡ new_coded_type base_datatype type_ true }
    {
        DiagCodedType::new(base_datatype, type_, true)
    }

    pub fn new(
        base_datatype: DataType,
        type_: DiagCodedTypeVariant,
        is_high_low_byte_order: bool,
    ) -> Result<DiagCodedType, Refusal>
        ensures { outcome_of result ≡ new_coded_type base_datatype type_ is_high_low_byte_order }
    {
        validate(base_datatype, type_)?;
        Ok(DiagCodedType {
            base_datatype,
            type_,
            is_high_low_byte_order,
        })
    }

    // 12, 13, 10 and 11: what either `new` refuses, of a coded type however it was made.
    pub fn validate(self) -> Result<(), Refusal>
        ensures { result ≡ made_refusal self }
    {
        self.type_.validate_limits()?;
        validate(self.base_datatype, self.type_)
    }

    pub fn base_datatype(self) -> DataType
        ensures { result ≡ self.base_datatype }
    {
        self.base_datatype
    }

    pub fn type_(self) -> DiagCodedTypeVariant
        ensures { result ≡ self.type_ }
    {
        self.type_
    }

    // The length that the description gives, where it gives one.
    pub fn bit_len(self) -> Option<BitLength>
        ensures { result ≡ bit_len_of self.type_ }
    {
        match self.type_ {
            DiagCodedTypeVariant::LeadingLengthInfo(bits) => Some(bits),
            DiagCodedTypeVariant::StandardLength(standard) => Some(standard.bit_length),
            DiagCodedTypeVariant::MinMaxLength(_) | DiagCodedTypeVariant::ParamLengthInfo(_) => {
                None
            }
        }
    }

    // Where the store has the name of the parameter that gives the length.
    pub fn length_key_place(self) -> Option<Place>
        ensures { result ≡ key_place_of self.type_ }
    {
        match self.type_ {
            DiagCodedTypeVariant::ParamLengthInfo(name) => Some(name),
            _ => None,
        }
    }
}

// Whether the variant may be had on the type.
fn validate(base_datatype: DataType, type_: DiagCodedTypeVariant) -> Result<(), Refusal>
    ensures { result ≡ coded_type_refusal base_datatype type_ }
{
    match type_ {
        DiagCodedTypeVariant::LeadingLengthInfo(_) if !base_datatype.is_byte_type() => {
            Err(Refusal::NumericWithVariableLength)
        }
        DiagCodedTypeVariant::MinMaxLength(limits) => validate_min_max(base_datatype, limits),
        _ => Ok(()),
    }
}

fn validate_min_max(base_datatype: DataType, limits: MinMaxLengthType) -> Result<(), Refusal>
    ensures { result ≡ coded_type_refusal base_datatype (DiagCodedTypeVariant.MinMaxLength limits) }
{
    if !base_datatype.is_byte_type() {
        return Err(Refusal::NumericWithVariableLength);
    }
    if base_datatype.is_unicode() && !even_limits(limits) {
        return Err(Refusal::OddUnicodeLimits);
    }
    Ok(())
}
