// Data types, bit lengths and byte counts, byte order, and the checks of bit position and bit length.
ghost use Rattle.std.specs.Prelude.{◌≡◌, [], ◌∷◌, ◌+◌, ◌*◌, ◌/◌, ◌%◌, ◌^◌, ◌<◌, ◌≤◌, ltb};
ghost use Rattle.kinds.specs.Types.{is_byte_type, is_unicode_type, byte_order_of, bytes_for};
ghost use Rattle.kinds.specs.Outcomes.{rule, first_among};
ghost use Rattle.kinds.specs.Slices.{saturating_sum};
ghost use Rattle.kinds.specs.Refusals.{bit_position_refusal, bit_length_refusal};

use super::refusals::Refusal;

// A slice that a call is lent has at most so many bytes, and a store of masks and key names fewer.
pub const SLICE_LIMIT: usize = 65535;

pub const STORE_LIMIT: usize = 32768;

// The data types, by the codes of a record.
#[derive(Clone, Copy, Debug, PartialEq, Eq)]
pub enum DataType {
    Int32 = 1,
    UInt32 = 2,
    Float32 = 3,
    AsciiString = 4,
    Utf8String = 5,
    Unicode2String = 6,
    ByteField = 7,
    Float64 = 8,
}

// A code that says nothing: no data type, no termination and no encoding has it.
#[derive(Clone, Copy, Debug, PartialEq, Eq)]
pub struct UnknownCode;

// A data type's code in a record.
impl From<DataType> for u8 {
    ghost use Rattle.std.specs.Prelude.{◌≡◌};
    ghost use Rattle.kinds.specs.Types.{type_code_of};

    ghost from_gives = { λ data_type code. code ≡ type_code_of data_type };

    fn from(data_type: DataType) -> u8 {
        data_type as u8
    }
}

impl TryFrom<u8> for DataType {
    type Error = UnknownCode;

    ghost use Rattle.std.specs.Prelude.{◌≡◌, ok_or};
    ghost use Rattle.kinds.specs.Types.{type_of};
    ghost use Rattle.kinds.specs.CodeUnknown.{unknown_code};

    ghost try_from_gives = { λ code known. known ≡ ok_or (type_of code) unknown_code };

    fn try_from(code: u8) -> Result<DataType, UnknownCode> {
        match code {
            1 => Ok(DataType::Int32),
            2 => Ok(DataType::UInt32),
            3 => Ok(DataType::Float32),
            4 => Ok(DataType::AsciiString),
            5 => Ok(DataType::Utf8String),
            6 => Ok(DataType::Unicode2String),
            7 => Ok(DataType::ByteField),
            8 => Ok(DataType::Float64),
            _ => Err(UnknownCode),
        }
    }
}

// A length in bits, as a description gives it or a reading counts it.
#[derive(Clone, Copy, Debug, PartialEq, Eq)]
pub struct BitLength(pub u32);

// A length in bytes.
#[derive(Clone, Copy, Debug, PartialEq, Eq)]
pub struct ByteCount(pub usize);

// What becomes of the order of a run of bytes.
#[derive(Clone, Copy, Debug, PartialEq, Eq)]
pub enum ByteOrder {
    Keep,
    ReorderPairs,
    Reverse,
}

// Outside this file a length is neither unwrapped nor converted but by these functions. Positions of bits and bytes are plain numbers.
impl BitLength {
    pub fn bits(self) -> usize
        ensures { result ≡ self.0 }
    {
        self.0 as usize
    }

    // The number that a record has for it.
    pub fn number(self) -> u32
        ensures { result ≡ self.0 }
    {
        self.0
    }

    pub fn one_more(self) -> BitLength
        requires { self.0 + 1 < 2 ^ 32 }
        ensures { result.0 ≡ self.0 + 1 }
    {
        BitLength(self.0 + 1)
    }

    // The bits that are left of whole bytes.
    pub fn remainder(self) -> BitLength
        ensures { result.0 ≡ self.0 % 8 }
    {
        BitLength(self.0 % 8)
    }

    // The bytes that so many bits fill.
    pub fn whole_bytes(self) -> ByteCount
        ensures { result.0 ≡ self.0 / 8 }
    {
        ByteCount(self.0 as usize / 8)
    }

    // The bytes that hold so many bits.
    pub fn byte_count(self) -> ByteCount
        ensures { result.0 ≡ bytes_for self.0 }
    {
        let bits = self.0 as usize;
        ByteCount((bits + 7) / 8)
    }

    // The bytes that hold so many bits from a bit position on. That it is at most 7 is asked here: a `Position` may be any.
    pub fn byte_count_from(self, bit_pos: usize) -> ByteCount
        requires { bit_pos ≤ 7 }
        ensures { result.0 ≡ bytes_for (bit_pos + self.0) }
    {
        let bits = self.0 as usize;
        ByteCount((bit_pos + bits + 7) / 8)
    }
}

impl ByteCount {
    // So many bytes, by a number of a record.
    pub fn of_number(number: u32) -> ByteCount
        ensures { result.0 ≡ number }
    {
        ByteCount(number as usize)
    }

    pub fn bytes(self) -> usize
        ensures { result ≡ self.0 }
    {
        self.0
    }

    // Eight bits to each byte, as far as a length in bits can tell.
    pub fn bit_length(self) -> BitLength
        requires { self.0 < 2 ^ 29 }
        ensures { result.0 ≡ 8 * self.0 }
    {
        let bytes = self.0 as u32;
        BitLength(8 * bytes)
    }

    // The position behind the last bit of so many bytes.
    pub fn bit_end(self) -> usize
        requires { self.0 < 2 ^ 61 }
        ensures { result ≡ 8 * self.0 }
    {
        8 * self.0
    }
}

// The byte that bit i is in, counted from the last byte, which is 0.
pub fn byte_from_last(i: usize) -> usize
    ensures { result ≡ i / 8 }
{
    i / 8
}

// Which bit of its byte bit i is.
pub fn bit_in_byte(i: usize) -> usize
    ensures { result ≡ i % 8 }
{
    i % 8
}

impl DataType {
    pub fn is_byte_type(self) -> bool
        ensures { result ≡ is_byte_type self }
    {
        matches!(
            self,
            DataType::AsciiString
                | DataType::Utf8String
                | DataType::Unicode2String
                | DataType::ByteField
        )
    }

    // Text of two bytes to a character, the one type that goes by pairs.
    pub fn is_unicode(self) -> bool
        ensures { result ≡ is_unicode_type self }
    {
        self == DataType::Unicode2String
    }

    // Byte fields, ASCII and UTF-8 text have no byte order (ISO 22901-1, 7.3.6.3.3 b).
    pub fn byte_order(self, is_high_low: bool) -> ByteOrder
        ensures { result ≡ byte_order_of self is_high_low }
    {
        if is_high_low {
            return ByteOrder::Keep;
        }
        match self {
            DataType::AsciiString | DataType::Utf8String | DataType::ByteField => ByteOrder::Keep,
            DataType::Unicode2String => ByteOrder::ReorderPairs,
            DataType::Int32 | DataType::UInt32 | DataType::Float32 | DataType::Float64 => {
                ByteOrder::Reverse
            }
        }
    }

    pub fn validate_bit_pos(self, bit_pos: usize) -> Result<(), Refusal>
        ensures { result ≡ bit_position_refusal self bit_pos }
    {
        if bit_pos == 0 {
            return Ok(());
        }
        if self.is_byte_type() {
            return Err(Refusal::ByteTypeAtBitPosition);
        }
        Ok(())
    }

    pub fn validate_bit_len(self, bit_len: BitLength) -> Result<(), Refusal>
        ensures { result ≡ bit_length_refusal self bit_len.0 }
    {
        let bits = bit_len.0;
        if bits == 0 {
            return Err(Refusal::ZeroBitLength);
        }
        match self {
            DataType::Int32 | DataType::UInt32 if 64 < bits => Err(Refusal::IntegerTooLong),
            DataType::Float32 if bits != 32 => Err(Refusal::Float32Length),
            DataType::Float64 if bits != 64 => Err(Refusal::Float64Length),
            DataType::Unicode2String if bits % 16 != 0 => Err(Refusal::UnicodeLength),
            _ => Ok(()),
        }
    }
}

// The sum of two positions, or the largest number where that is larger. It stays beside the library's method: a wrong edit is of it.
pub fn saturating_add(a: usize, b: usize) -> usize
    ensures { result ≡ saturating_sum a b }
{
    a.saturating_add(b)
}
