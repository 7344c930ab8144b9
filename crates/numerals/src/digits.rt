// Digits of one base taken as those of another: packed decimal, both ways.
ghost use Rattle.std.specs.Prelude.{◌≡◌, ◌-◌, ◌^◌, ◌≤◌, ◌<◌};
ghost use Rattle.numerals.specs.Digits.{rebased, digits_below};

// 10 to the power of a count of digits.
pub fn power_of_ten(digits: usize) -> u64
    requires { digits ≤ 16 }
    ensures { result ≡ 10 ^ digits }
{
    10u64.pow(digits as u32)
}

// Whether the lowest digits in base 16 are digits in base 10. A u64 has 16 of them, and zeros above.
pub fn are_decimal(digits: usize, number: u64) -> bool
    ensures { result ≡ digits_below 16 10 digits number }
{
    (0..digits.min(16)).all(|place| (number >> (4 * place)) % 16 < 10)
}

// The lowest digits in one base, taken as digits in another. A loop, since a chain would have to carry all three
// numbers. What it asks is of these and of no other function.
#[tactic(auto, using(crate::proofs::Rebased::rebase_laws))]
pub fn rebase(from: u64, to: u64, digits: usize, number: u64) -> u64
    requires from_nonzero { 0 < from }
    requires to_nonzero { 0 < to }
    requires digits_nonzero { 0 < digits }
    requires digits_bound { to ^ (digits - 1) < 2 ^ 64 }
    requires number_bound { rebased from to digits number < 2 ^ 64 }
    ensures { result ≡ rebased from to digits number }
{
    let mut rest = number;
    let mut counts = 1;
    let mut made = number % from;
    for _ in 1..digits {
        rest /= from;
        counts *= to;
        made += rest % from * counts;
    }
    made
}
