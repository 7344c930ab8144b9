// The four variants of a coded type, and what each holds.
ghost use Rattle.std.specs.Prelude.{◌≡◌};
ghost use Rattle.coded.specs.Refusals.{min_max_refusal, limits_refusal};
ghost use Rattle.kinds.specs.Outcomes.{outcome_of};
ghost use Rattle.coded.specs.Making.{new_min_max};

use kinds::{BitLength, ByteCount, Refusal, UnknownCode};

// A part of the store of masks and key names.
#[derive(Clone, Copy, Debug, PartialEq, Eq)]
pub struct Place {
    pub at: usize,
    pub len: ByteCount,
}

// How data bytes end, by the codes of a record.
#[derive(Clone, Copy, Debug, PartialEq, Eq)]
pub enum Termination {
    EndOfPdu = 1,
    Zero = 2,
    HexFF = 3,
}

// A termination's code in a record.
impl From<Termination> for u8 {
    ghost use Rattle.std.specs.Prelude.{◌≡◌};
    ghost use Rattle.coded.specs.RecordCodes.{termination_code};

    ghost from_gives = { λ termination code. code ≡ termination_code termination };

    fn from(termination: Termination) -> u8 {
        termination as u8
    }
}

impl TryFrom<u8> for Termination {
    type Error = UnknownCode;

    ghost use Rattle.std.specs.Prelude.{◌≡◌, ok_or};
    ghost use Rattle.kinds.specs.CodeUnknown.{unknown_code};
    ghost use Rattle.coded.specs.RecordCodes.{termination_of};

    ghost try_from_gives = { λ code known. known ≡ ok_or (termination_of code) unknown_code };

    fn try_from(code: u8) -> Result<Termination, UnknownCode> {
        match code {
            1 => Ok(Termination::EndOfPdu),
            2 => Ok(Termination::Zero),
            3 => Ok(Termination::HexFF),
            _ => Err(UnknownCode),
        }
    }
}

#[derive(Clone, Copy, Debug, PartialEq, Eq)]
pub struct MinMaxLengthType {
    pub min_length: u32,
    pub max_length: Option<u32>,
    pub termination: Termination,
}

#[derive(Clone, Copy, Debug, PartialEq, Eq)]
pub struct StandardLengthType {
    pub bit_length: BitLength,
    pub bit_mask: Option<Place>,
    // Beside the mask, since a description may say it and have none (RULES 2.6).
    pub condensed: bool,
}

#[derive(Clone, Copy, Debug, PartialEq, Eq)]
pub enum DiagCodedTypeVariant {
    LeadingLengthInfo(BitLength),
    MinMaxLength(MinMaxLengthType),
    StandardLength(StandardLengthType),
    ParamLengthInfo(Place),
}

// A variant's code in a record.
impl From<DiagCodedTypeVariant> for u8 {
    ghost use Rattle.std.specs.Prelude.{◌≡◌};
    ghost use Rattle.coded.specs.RecordCodes.{variant_code};

    ghost from_gives = { λ variant code. code ≡ variant_code variant };

    fn from(variant: DiagCodedTypeVariant) -> u8 {
        match variant {
            DiagCodedTypeVariant::LeadingLengthInfo(_) => 1,
            DiagCodedTypeVariant::MinMaxLength(_) => 2,
            DiagCodedTypeVariant::StandardLength(_) => 3,
            DiagCodedTypeVariant::ParamLengthInfo(_) => 4,
        }
    }
}

impl MinMaxLengthType {
    pub fn new(
        min_length: u32,
        max_length: Option<u32>,
        termination: Termination,
    ) -> Result<MinMaxLengthType, Refusal>
        ensures { outcome_of result ≡ new_min_max min_length max_length termination }
    {
        validate_limits(min_length, max_length)?;
        Ok(MinMaxLengthType {
            min_length,
            max_length,
            termination,
        })
    }

    pub fn min_length(self) -> u32
        ensures { result ≡ self.min_length }
    {
        self.min_length
    }

    pub fn max_length(self) -> Option<u32>
        ensures { result ≡ self.max_length }
    {
        self.max_length
    }

    pub fn termination(self) -> Termination
        ensures { result ≡ self.termination }
    {
        self.termination
    }
}

fn validate_limits(min_length: u32, max_length: Option<u32>) -> Result<(), Refusal>
    ensures { result ≡ min_max_refusal min_length max_length }
{
    match max_length {
        Some(0) => Err(Refusal::ZeroMaximum),
        Some(most) if most < min_length => Err(Refusal::MaximumBelowMinimum),
        _ => Ok(()),
    }
}

impl DiagCodedTypeVariant {
    // 12 and 13, where the variant has limits.
    pub fn validate_limits(self) -> Result<(), Refusal>
        ensures { result ≡ limits_refusal self }
    {
        match self {
            DiagCodedTypeVariant::MinMaxLength(limits) => {
                validate_limits(limits.min_length, limits.max_length)
            }
            _ => Ok(()),
        }
    }
}
