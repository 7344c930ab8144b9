// An i64 as its sign and its magnitude. The least i64 has a magnitude that no i64 has.
ghost use Rattle.std.specs.Prelude.{◌≡◌};
ghost use Rattle.std.specs.Int.{w64};
ghost use Rattle.std.proofs.Common.{SFits};
ghost use Rattle.numerals.specs.CodeSigned.{integer};

// Some encodings have a second zero. It is `Minus(0)`.
#[derive(Clone, Copy, Debug, PartialEq, Eq)]
pub enum Signed {
    Plus(u64),
    Minus(u64),
}

impl From<i64> for Signed {
    ghost use Rattle.std.specs.Prelude.{◌≡◌, pos};
    ghost use Rattle.std.specs.Int.Signed.{lt_z};
    ghost use Rattle.numerals.specs.CodeSigned.{integer, is_minus};

    ghost from_gives = { λ value signed. (integer signed ≡ value) × (is_minus signed ≡ lt_z value (pos 0)) };

    fn from(value: i64) -> Signed {
        let magnitude = value.unsigned_abs();
        if value < 0 {
            Signed::Minus(magnitude)
        } else {
            Signed::Plus(magnitude)
        }
    }
}

impl Signed {
    // Wrapping, the least i64 is the negative of itself. No `From`, since not every magnitude is one of an i64.
    pub fn value(self) -> i64
        requires { SFits w64 (integer self) }
        ensures { result ≡ integer self }
    {
        match self {
            Signed::Plus(magnitude) => magnitude.cast_signed(),
            Signed::Minus(magnitude) => magnitude.cast_signed().wrapping_neg(),
        }
    }
}
