// The head of a stored answer: which call, how long the parts behind it are, and which numbers go in and come out.
ghost use Rattle.std.specs.Prelude.{◌≡◌, ◌+◌};

pub const HEAD_LEN: usize = 21;

// A call, and the numbers that it alone is given and leaves.
#[derive(Clone, Copy, Debug, PartialEq, Eq)]
pub enum Call {
    // With room for so many bytes.
    Decode { room: u8 },
    // The used length, and what it is after the call.
    Encode { used: usize, used_after: usize },
    Clear { used: usize },
    // How many bytes are asked for, and where in the payload they start.
    Read { byte_count: usize, place: usize },
}

// A code that no call has.
#[derive(Clone, Copy, Debug, PartialEq, Eq)]
pub struct UnknownCall;

impl TryFrom<[u8; 3]> for Call {
    type Error = UnknownCall;

    // Of a code, the number that goes in and the one that comes out.
    fn try_from([code, given, left]: [u8; 3]) -> Result<Self, UnknownCall> {
        match code {
            1 => Ok(Call::Decode { room: given }),
            2 => Ok(Call::Encode {
                used: usize::from(given),
                used_after: usize::from(left),
            }),
            3 => Ok(Call::Clear {
                used: usize::from(given),
            }),
            4 => Ok(Call::Read {
                byte_count: usize::from(given),
                place: usize::from(left),
            }),
            _ => Err(UnknownCall),
        }
    }
}

#[derive(Clone, Copy, Debug, PartialEq, Eq)]
pub struct Head {
    pub call: Result<Call, UnknownCall>,
    pub number: u32,
    pub store_len: u8,
    pub input_len: u8,
    pub payload_len: u8,
    pub after_len: u8,
    pub byte_pos: usize,
    pub bit_pos: usize,
    // Bit count, byte count, expected and actual.
    pub report: [usize; 4],
}

// A number below 0 stands for one of the last numbers below 2^64.
fn far(number: i32) -> usize {
    i64::from(number).cast_unsigned() as usize
}

impl From<[u8; HEAD_LEN]> for Head {
    fn from(bytes: [u8; HEAD_LEN]) -> Self {
        let [
            code,
            number,
            store_len,
            input_len,
            payload_len,
            after_len,
            given,
            left,
            p0,
            p1,
            p2,
            p3,
            bit_pos,
            c0,
            c1,
            byte_count,
            e0,
            e1,
            e2,
            e3,
            actual,
        ] = bytes;
        Head {
            call: Call::try_from([code, given, left]),
            number: u32::from(number),
            store_len,
            input_len,
            payload_len,
            after_len,
            byte_pos: far(i32::from_be_bytes([p0, p1, p2, p3])),
            bit_pos: far(i32::from(bit_pos.cast_signed())),
            report: [
                usize::from(u16::from_be_bytes([c0, c1])),
                usize::from(byte_count),
                far(i32::from_be_bytes([e0, e1, e2, e3])),
                usize::from(actual),
            ],
        }
    }
}

// A record stands before the parts.
pub const RECORD_LEN: usize = 16;

impl Head {
    // How many bytes the record and the parts have together.
    pub fn body_len(&self) -> usize
        ensures { result ≡ 16 + self.now.store_len + self.now.input_len + self.now.payload_len + self.now.after_len }
    {
        RECORD_LEN
            + usize::from(self.store_len)
            + usize::from(self.input_len)
            + usize::from(self.payload_len)
            + usize::from(self.after_len)
    }
}
