// A mask with its use.

// What a field does with a mask. Without one it has no mask, not even an empty one.
#[derive(Clone, Copy, Debug, PartialEq, Eq)]
pub enum Mask<'a> {
    Absent,
    Plain(&'a [u8]),
    Condensed(&'a [u8]),
}
