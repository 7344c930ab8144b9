// Numbers in three forms: as bytes, as digits, and an i64 as its sign and its magnitude.
#![tactic(auto)]

mod digits; // digits.rt: digits of one base taken as those of another
mod patterns; // patterns.rt: bytes as the number that their bits make, and back
mod signed; // signed.rt: an i64 as its sign and its magnitude

pub use digits::{are_decimal, power_of_ten, rebase};
pub use patterns::{high_bit, lowest, put};
pub use signed::Signed;
