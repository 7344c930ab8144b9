// From the numbers of a record to the coded type that they say. What a variant lacks has to be 0.
ghost use Rattle.std.specs.Prelude.{◌≡◌};
ghost use Rattle.record.specs.Parsing.{has_limits, has_mask, has_place, leading_of, min_max_of, standard_of, param_of, limits_of, variant_of, coded_of, coded_in};

use super::numbers::{Numbers, RECORD_SIZE};
use coded::{
    DiagCodedType, DiagCodedTypeVariant, MinMaxLengthType, StandardLengthType, Termination,
};
use kinds::{BitLength, DataType};

impl Numbers {
    // What MinMaxLength alone has: a termination, a maximum.
    fn has_limits(self) -> bool
        ensures { result ≡ has_limits self }
    {
        self.termination != 0 || self.flags.max || self.most != 0
    }

    // What StandardLength alone has.
    fn has_mask(self) -> bool
        ensures { result ≡ has_mask self }
    {
        self.flags.mask || self.flags.condensed
    }

    // What a mask and a key name have.
    fn has_place(self) -> bool
        ensures { result ≡ has_place self }
    {
        self.place.at != 0 || self.place.len.bytes() != 0
    }

    fn leading(self) -> Option<DiagCodedTypeVariant>
        ensures { result ≡ leading_of self }
    {
        if self.has_limits() || self.has_mask() || self.has_place() {
            return None;
        }
        Some(DiagCodedTypeVariant::LeadingLengthInfo(BitLength(self.length)))
    }

    fn min_max(self) -> Option<DiagCodedTypeVariant>
        ensures { result ≡ min_max_of self }
    {
        if self.has_mask() || self.has_place() {
            return None;
        }
        self.limits(Termination::try_from(self.termination).ok()?)
    }

    // A maximum stands only where its flag says so.
    fn limits(self, termination: Termination) -> Option<DiagCodedTypeVariant>
        ensures { result ≡ limits_of self termination }
    {
        if !self.flags.max && self.most != 0 {
            return None;
        }
        Some(DiagCodedTypeVariant::MinMaxLength(MinMaxLengthType {
            min_length: self.length,
            max_length: self.flags.max.then_some(self.most),
            termination,
        }))
    }

    // A mask stands only where its flag says so.
    fn standard(self) -> Option<DiagCodedTypeVariant>
        ensures { result ≡ standard_of self }
    {
        if self.has_limits() || (!self.flags.mask && self.has_place()) {
            return None;
        }
        Some(DiagCodedTypeVariant::StandardLength(StandardLengthType {
            bit_length: BitLength(self.length),
            bit_mask: self.flags.mask.then_some(self.place),
            condensed: self.flags.condensed,
        }))
    }

    fn param(self) -> Option<DiagCodedTypeVariant>
        ensures { result ≡ param_of self }
    {
        if self.has_limits() || self.has_mask() || self.length != 0 {
            return None;
        }
        Some(DiagCodedTypeVariant::ParamLengthInfo(self.place))
    }

    fn variant_of(self) -> Option<DiagCodedTypeVariant>
        ensures { result ≡ variant_of self }
    {
        match self.variant {
            1 => self.leading(),
            2 => self.min_max(),
            3 => self.standard(),
            4 => self.param(),
            _ => None,
        }
    }

    // The coded type that the numbers of a record say.
    #[tactic(auto, unfolding(crate::specs::Parsing::coded_of))]
    fn coded_of(self) -> Option<DiagCodedType>
        ensures { result ≡ coded_of self }
    {
        if self.flags.others != 0 {
            return None;
        }
        Some(DiagCodedType {
            base_datatype: DataType::try_from(self.type_code).ok()?,
            type_: self.variant_of()?,
            is_high_low_byte_order: self.flags.high_low,
        })
    }
}

// The coded type that a record says, if it is one.
pub fn parse(record: &[u8]) -> Option<DiagCodedType>
    ensures { result ≡ coded_in «record».now }
{
    let bytes = <[u8; RECORD_SIZE]>::try_from(record).ok()?;
    Numbers::from(bytes).coded_of()
}
