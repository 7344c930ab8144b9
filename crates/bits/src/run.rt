// A run of bits of bytes that are lent.
ghost use Rattle.std.specs.Prelude.{◌+◌, ◌*◌, ◌≤◌, length};

use kinds::{BitLength, ByteOrder, Lent};

// So many bits from a bit position on, of the ordered form of the data. What this says of them no function has to ask again.
#[derive(Clone, Copy, Debug, PartialEq, Eq)]
pub struct Run<'a> {
    pub data: Lent<'a>,
    pub byte_order: ByteOrder,
    pub bit_pos: usize,
    pub bit_len: BitLength,
    pub ghost inside: { bit_pos + bit_len.0 ≤ 8 * length «data».bytes.now },
}
