// Bytes that a call is lent to read, and where in a payload a field starts.
ghost use Rattle.std.specs.Prelude.{◌≡◌, ◌≤◌, length};

// Bytes of a slice of which the length was checked. What this says of them no function below has to ask again.
#[derive(Clone, Copy, Debug, PartialEq, Eq)]
pub struct Lent<'a> {
    pub bytes: &'a [u8],
    pub ghost len_bound: { length bytes.now ≤ 65535 },
}

// A bit position counts from the lowest bit of the byte at the byte position. It may be any number: what needs one of at most 7 asks for it.
// It stands beside a payload and not in one, since it is told of payloads that are read and of those that are written.
#[derive(Clone, Copy, Debug, PartialEq, Eq)]
pub struct Position {
    pub byte_pos: usize,
    pub bit_pos: usize,
}
