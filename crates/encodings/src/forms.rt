// The four encodings by value: their codes, the widths and sizes that each allows, and how far its range goes.
ghost use Rattle.std.specs.Prelude.{◌≡◌, true};
ghost use Rattle.encodings.specs.Widths.{allowed, fits};
ghost use Rattle.encodings.specs.Writing.{height, depth};

use kinds::{BitLength, UnknownCode};
use numerals::{high_bit, power_of_ten};

#[derive(Clone, Copy, Debug, PartialEq, Eq)]
pub enum Encoding {
    TwosComplement,
    OnesComplement,
    SignMagnitude,
    PackedDecimal,
}

// The encoding with a code.
impl TryFrom<u32> for Encoding {
    type Error = UnknownCode;

    ghost use Rattle.std.specs.Prelude.{◌≡◌, ok_or};
    ghost use Rattle.kinds.specs.CodeUnknown.{unknown_code};
    ghost use Rattle.encodings.specs.Widths.{encoding_of};

    ghost try_from_gives = { λ code known. known ≡ ok_or (encoding_of code) unknown_code };

    fn try_from(code: u32) -> Result<Encoding, UnknownCode> {
        match code {
            1 => Ok(Encoding::TwosComplement),
            2 => Ok(Encoding::OnesComplement),
            3 => Ok(Encoding::SignMagnitude),
            4 => Ok(Encoding::PackedDecimal),
            _ => Err(UnknownCode),
        }
    }
}

impl Encoding {
    fn allows(self, width: usize) -> bool
        ensures { result ≡ allowed self width }
    {
        (2..=64).contains(&width) && (self != Encoding::PackedDecimal || width % 4 == 0)
    }

    // Whether a width is allowed, and so many bytes are what it takes.
    pub fn fits(self, width: usize, size: usize) -> bool
        ensures { result ≡ fits self width size }
    {
        self.allows(width) && size == BitLength(width as u32).byte_count().bytes()
    }
}

// An encoding with a width that it allows.
#[derive(Clone, Copy, Debug, PartialEq, Eq)]
pub struct Form {
    pub encoding: Encoding,
    pub width: usize,
    pub ghost width_value: { allowed encoding width ≡ true },
}

impl Form {
    // How far the range goes above zero.
    #[tactic(auto, using(crate::proofs::Ranges::some_tens))]
    pub fn height(self) -> u64
        ensures { result ≡ height self.encoding self.width }
    {
        let width = self.width;
        match self.encoding {
            Encoding::TwosComplement | Encoding::OnesComplement | Encoding::SignMagnitude => {
                high_bit(width) - 1
            }
            Encoding::PackedDecimal => power_of_ten(width / 4) - 1,
        }
    }

    // How far the range goes below zero.
    pub fn depth(self) -> u64
        ensures { result ≡ depth self.encoding self.width }
    {
        match self.encoding {
            Encoding::TwosComplement => high_bit(self.width),
            Encoding::OnesComplement | Encoding::SignMagnitude => high_bit(self.width) - 1,
            Encoding::PackedDecimal => 0,
        }
    }
}
