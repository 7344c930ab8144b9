// The refusals of RULES 10 as an enum, and what an answer of a call says in numbers.
ghost use Rattle.std.specs.Prelude.{◌≡◌, ◌∷◌};
ghost use Rattle.kinds.specs.Answers.{number_of, no_counts, report_by};

use super::lent::Lent;
use super::types::{BitLength, ByteCount};

// The number of what says more than its number, which is a case of its own of the failures.
pub const NOT_ENOUGH_DATA: u32 = 30;

// The other rows of the table of refusals, by their numbers.
#[derive(Clone, Copy, Debug, PartialEq, Eq)]
pub enum Refusal {
    NumericWithVariableLength = 10,
    OddUnicodeLimits = 11,
    ZeroMaximum = 12,
    MaximumBelowMinimum = 13,
    ByteTypeAtBitPosition = 20,
    ZeroBitLength = 21,
    IntegerTooLong = 22,
    Float32Length = 23,
    Float64Length = 24,
    UnicodeLength = 25,
    BitPositionAboveSeven = 26,
    BitsPastCut = 27,
    LengthFieldPastPayload = 31,
    LengthFieldTooWide = 32,
    CountTooLarge = 33,
    ScanPastPayload = 34,
    EmptyUntilEndOfPdu = 35,
    MaskLongerThanLength = 36,
    RuntimeLengthNeeded = 37,
    EmptyLengthField = 38,
    NotClearable = 39,
    PayloadLacksRoom = 40,
    OutputLacksRoom = 41,
    MalformedRecord = 42,
    SliceTooLong = 43,
    UsedPastSlice = 44,
    MalformedTable = 45,
    WidthNotAllowed = 58,
    ValueOutOfRange = 59,
    DigitAboveNine = 60,
}

// Why a field is not read, written or found: 30, or another row of the table.
#[derive(Clone, Copy, Debug, PartialEq, Eq)]
pub enum Failure {
    NotEnoughData { expected: usize, actual: usize },
    Refused(Refusal),
}

impl From<Refusal> for Failure {
    ghost use Rattle.std.specs.Prelude.{◌≡◌};
    ghost use Rattle.kinds.specs.declared.refusals.Failure.TheVariants.{Refused};

    ghost from_gives = { λ refusal failure. failure ≡ Refused refusal };

    fn from(refusal: Refusal) -> Failure {
        Failure::Refused(refusal)
    }
}

// How many bits and how many bytes a reading gives.
#[derive(Clone, Copy, Debug, PartialEq, Eq)]
pub struct Counts {
    pub bit_count: BitLength,
    pub byte_count: ByteCount,
}

// Where a field's data bytes start, and how many bits they have.
#[derive(Clone, Copy, Debug, PartialEq, Eq)]
pub struct PosInfo {
    pub bit_len: BitLength,
    pub start_pos: usize,
}

impl Refusal {
    pub fn number(self) -> u32
        ensures { result ≡ number_of self }
    {
        self as u32
    }
}

// What a call counts where it succeeds.
pub trait Counted {
    ghost use Rattle.std.specs.Prelude.{◌≡◌};
    ghost use Rattle.kinds.specs.declared.refusals.Counts.{Counts};

    ghost counts_of: { Self → Counts };

    fn counts(self) -> Counts
        ensures { result ≡ counts_of self };
}

// A reading counts its bits and bytes.
impl Counted for Counts {
    ghost counts_of = { λ counts. counts };

    fn counts(self) -> Counts {
        self
    }
}

// A part of a payload counts its bytes, and eight bits to each.
impl<'a> Counted for Lent<'a> {
    ghost use Rattle.kinds.specs.Answers.{counts_of_lent};

    ghost counts_of = { λ part. counts_of_lent part };

    fn counts(self) -> Counts {
        let byte_count = ByteCount(self.bytes.len());
        Counts {
            bit_count: byte_count.bit_length(),
            byte_count,
        }
    }
}

// A writing and a clearing count nothing.
impl Counted for () {
    ghost counts_of = { λ _. no_counts };

    fn counts(self) -> Counts {
        Counts {
            bit_count: BitLength(0),
            byte_count: ByteCount(0),
        }
    }
}

// Answers the number, and leaves the rest of the report: bit count, byte count, expected and actual. Numbers in an array, since that is
// what C is given.
pub fn report<T: Counted>(answer: Result<T, Failure>, report: &mut [usize; 4]) -> u32
    ensures { result ∷ report.new ≡ report_by T.counts_of answer }
{
    match answer {
        Ok(given) => {
            let counts = given.counts();
            *report = [counts.bit_count.bits(), counts.byte_count.bytes(), 0, 0];
            0
        }
        Err(Failure::NotEnoughData { expected, actual }) => {
            *report = [0, 0, expected, actual];
            NOT_ENOUGH_DATA
        }
        Err(Failure::Refused(refusal)) => {
            *report = [0, 0, 0, 0];
            refusal.number()
        }
    }
}
