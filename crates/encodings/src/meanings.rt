// What the bits of a value say, and the bits that a number is written as.
ghost use Rattle.std.specs.Prelude.{◌≡◌, true, ◌^◌, ◌<◌, ◌≤◌, pos};
ghost use Rattle.std.specs.Int.Signed.{lt_z};
ghost use Rattle.kinds.specs.Outcomes.{gives, after};
ghost use Rattle.encodings.specs.Widths.{allowed};
ghost use Rattle.encodings.specs.Meaning.{meaning};
ghost use Rattle.encodings.specs.Writing.{depth, in_range, pattern_of};
ghost use Rattle.encodings.specs.Refusals.{digit_refusal};
ghost use Rattle.numerals.specs.CodeSigned.{integer, is_minus};
ghost use Rattle.encodings.specs.CodeSaid.{opposite_of, outcome_of_said};

use super::forms::{Encoding, Form};
use kinds::Refusal;
use numerals::{Signed, are_decimal, high_bit, rebase};

// What digits of base 16 say as digits of base 10.
#[tactic(auto, using(numerals::proofs::Rebased::rebased_le), unfolding(crate::specs::Meaning::meaning))]
fn decimal(width: usize, pattern: u64) -> Result<Signed, Refusal>
    requires { allowed Encoding.PackedDecimal width ≡ true }
    ensures { outcome_of_said result ≡ after (digit_refusal Encoding.PackedDecimal width pattern) (gives (meaning Encoding.PackedDecimal width pattern)) }
{
    if !are_decimal(width / 4, pattern) {
        return Err(Refusal::DigitAboveNine);
    }
    Ok(Signed::Plus(rebase(16, 10, width / 4, pattern)))
}

impl Form {
    // For a number below zero: turns the bits under the highest into the magnitude, and the magnitude into those bits.
    fn opposite(self, n: u64) -> u64
        requires { n ≤ depth self.encoding self.width }
        ensures { result ≡ opposite_of self.encoding self.width n }
    {
        let high = high_bit(self.width);
        match self.encoding {
            Encoding::TwosComplement => high - n,
            Encoding::OnesComplement => high - 1 - n,
            Encoding::SignMagnitude => n,
            Encoding::PackedDecimal => 0,
        }
    }

    // What a pattern says.
    #[tactic(auto, using(crate::proofs::Meaning::said_laws))]
    pub fn bits_say(self, pattern: u64) -> Result<Signed, Refusal>
        requires { pattern < 2 ^ self.width }
        ensures { outcome_of_said result ≡ after (digit_refusal self.encoding self.width pattern) (gives (meaning self.encoding self.width pattern)) }
    {
        if self.encoding == Encoding::PackedDecimal {
            return decimal(self.width, pattern);
        }
        let high = high_bit(self.width);
        if pattern < high {
            return Ok(Signed::Plus(pattern));
        }
        Ok(Signed::Minus(self.opposite(pattern - high)))
    }

    // Whether a number is in the range.
    #[tactic(auto, using(crate::proofs::Ranges::in_above, crate::proofs::Ranges::in_below))]
    pub fn in_range(self, number: Signed) -> bool
        ensures { result ≡ in_range self.encoding self.width (integer number) }
    {
        match number {
            Signed::Plus(magnitude) => magnitude <= self.height(),
            Signed::Minus(magnitude) => magnitude <= self.depth(),
        }
    }

    // The pattern of a number in the range. What is negative is below zero: the second zero of an encoding is not written.
    #[tactic(auto, using(crate::proofs::Ranges::written_laws), unfolding(crate::specs::Writing::pattern_of))]
    pub fn pattern_of(self, number: Signed) -> u64
        requires number_value { in_range self.encoding self.width (integer number) ≡ true }
        requires negative_value { is_minus number ≡ lt_z (integer number) (pos 0) }
        ensures { result ≡ pattern_of self.encoding self.width (integer number) }
    {
        match number {
            Signed::Plus(magnitude) if self.encoding == Encoding::PackedDecimal => {
                rebase(10, 16, self.width / 4, magnitude)
            }
            Signed::Plus(magnitude) => magnitude,
            Signed::Minus(magnitude) => high_bit(self.width) + self.opposite(magnitude),
        }
    }
}
