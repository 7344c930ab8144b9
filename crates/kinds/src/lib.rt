// Data types, bit lengths, byte counts and byte order by value, and what a call is lent, with the refusals, the reports, the checks 20 to 25,
// limits and sums.
#![tactic(auto)]

mod lent; // lent.rt: bytes that a call is lent to read, and where in a payload a field starts
mod refusals; // refusals.rt: the numbered refusals, why a call fails, what a reading gives, and the report of either
mod types; // types.rt: data types, bit lengths, byte counts, byte order, and the checks of position and length

pub use lent::{Lent, Position};
pub use refusals::{Counted, Counts, Failure, NOT_ENOUGH_DATA, PosInfo, Refusal, report};
pub use types::{
    BitLength, ByteCount, ByteOrder, DataType, SLICE_LIMIT, STORE_LIMIT, UnknownCode, bit_in_byte,
    byte_from_last, saturating_add,
};
