// From a coded type to its record. What a variant lacks is written as 0.
#![tactic(auto)]

ghost use Rattle.std.specs.Prelude.{◌≡◌, ◌<◌};
ghost use Rattle.kinds.specs.Answers.{report_of_check};
ghost use Rattle.kinds.specs.Outcomes.{answer};
ghost use Rattle.kinds.specs.Types.{type_code_of};
ghost use Rattle.coded.specs.RecordCodes.{variant_code};
ghost use Rattle.storing.specs.Storing.{nowhere, plain_numbers, numbers_for, flag, flags_byte, stored_record};

use coded::{DiagCodedType, DiagCodedTypeVariant, Place};
use kinds::{ByteCount, Refusal};
use record::{Flags, Numbers, RECORD_SIZE};

// What stands where there is no place.
const NOWHERE: Place = Place {
    at: 0,
    len: ByteCount(0),
};

// Of a variant with neither a mask nor limits, and without a length or a place.
fn plain_numbers(coded_type: DiagCodedType) -> Numbers
    ensures { result ≡ plain_numbers (type_code_of coded_type.base_datatype) coded_type.is_high_low_byte_order (variant_code coded_type.type_) 0 nowhere }
{
    Numbers {
        type_code: u8::from(coded_type.base_datatype),
        flags: Flags {
            high_low: coded_type.is_high_low_byte_order,
            mask: false,
            condensed: false,
            max: false,
            others: 0,
        },
        variant: u8::from(coded_type.type_),
        termination: 0,
        length: 0,
        most: 0,
        place: NOWHERE,
    }
}

fn numbers_for(coded_type: DiagCodedType) -> Numbers
    ensures { result ≡ numbers_for coded_type }
{
    let plain = plain_numbers(coded_type);
    match coded_type.type_ {
        DiagCodedTypeVariant::LeadingLengthInfo(bits) => Numbers {
            length: bits.number(),
            ..plain
        },
        DiagCodedTypeVariant::MinMaxLength(limits) => Numbers {
            flags: Flags {
                max: limits.max_length.is_some(),
                ..plain.flags
            },
            termination: u8::from(limits.termination),
            length: limits.min_length,
            most: limits.max_length.unwrap_or(0),
            ..plain
        },
        DiagCodedTypeVariant::StandardLength(standard) => Numbers {
            flags: Flags {
                mask: standard.bit_mask.is_some(),
                condensed: standard.condensed,
                ..plain.flags
            },
            length: standard.bit_length.number(),
            place: standard.bit_mask.unwrap_or(NOWHERE),
            ..plain
        },
        DiagCodedTypeVariant::ParamLengthInfo(name) => Numbers {
            place: name,
            ..plain
        },
    }
}

fn flag(is_set: bool, value: u8) -> u8
    ensures { result ≡ flag is_set value }
{
    if is_set { value } else { 0 }
}

// No `From`: others of 16 and more have no place in a byte.
fn flags_byte(flags: Flags) -> u8
    requires { flags.others < 16 }
    ensures { result ≡ flags_byte flags }
{
    let high_low = flag(flags.high_low, 1);
    let mask = flag(flags.mask, 2);
    let condensed = flag(flags.condensed, 4);
    let max = flag(flags.max, 8);
    high_low + mask + condensed + max + 16 * flags.others
}

// 42 where a place of the store is past what 16 bits can say. The clause says that the old bytes then stay, which it could not of a
// record that is handed back: so the record is lent.
#[tactic(auto, unfolding(crate::specs::Storing::stored_record))]
pub fn record_of(coded_type: DiagCodedType, record: &mut [u8; RECORD_SIZE]) -> Result<(), Refusal>
    ensures { answer (report_of_check result) «record».new ≡ stored_record coded_type «record».old }
{
    let numbers = numbers_for(coded_type);
    let at = u16::try_from(numbers.place.at).map_err(|_| Refusal::MalformedRecord)?;
    let len = u16::try_from(numbers.place.len.bytes()).map_err(|_| Refusal::MalformedRecord)?;
    let [l0, l1, l2, l3] = numbers.length.to_be_bytes();
    let [m0, m1, m2, m3] = numbers.most.to_be_bytes();
    let [a0, a1] = at.to_be_bytes();
    let [n0, n1] = len.to_be_bytes();
    *record = [
        numbers.type_code,
        flags_byte(numbers.flags),
        numbers.variant,
        numbers.termination,
        l0,
        l1,
        l2,
        l3,
        m0,
        m1,
        m2,
        m3,
        a0,
        a1,
        n0,
        n1,
    ];
    Ok(())
}
