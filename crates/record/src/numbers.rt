// The numbers of a record, big-endian.
ghost use Rattle.std.specs.Prelude.{◌≡◌, ◌+◌, ◌/◌, ◌%◌, ◌≤◌, ◌<◌, length, eqb};
ghost use Rattle.record.specs.Numbers.{be16};

use coded::Place;
use kinds::ByteCount;

// The bytes of a record.
pub const RECORD_SIZE: usize = 16;

// The four flags, and the bits beside them.
#[derive(Clone, Copy, Debug, PartialEq, Eq)]
pub struct Flags {
    pub high_low: bool,
    pub mask: bool,
    pub condensed: bool,
    pub max: bool,
    pub others: u8,
}

// What stands in a record, and no kinds yet: `parse` makes those, or finds that there are none.
#[derive(Clone, Copy, Debug, PartialEq, Eq)]
pub struct Numbers {
    pub type_code: u8,
    pub flags: Flags,
    pub variant: u8,
    pub termination: u8,
    pub length: u32,
    pub most: u32,
    pub place: Place,
}

pub fn read16(bytes: &[u8], at: usize) -> u16
    requires { at + 2 ≤ length bytes.now }
    ensures { (result ≡ be16 bytes.now at) × (result < 65536) }
{
    u16::from_be_bytes([bytes[at], bytes[at + 1]])
}

// Whether a byte has the flag that counts so much.
fn has_flag(byte: u8, weight: u8) -> bool
    requires { 0 < weight }
    ensures { result ≡ eqb (byte / weight % 2) 1 }
{
    byte / weight % 2 == 1
}

// The flags of their byte.
impl From<u8> for Flags {
    ghost use Rattle.std.specs.Prelude.{◌≡◌};
    ghost use Rattle.record.specs.Numbers.{flags_of};

    ghost from_gives = { λ byte flags. flags ≡ flags_of byte };

    fn from(byte: u8) -> Flags {
        Flags {
            high_low: byte % 2 == 1,
            mask: has_flag(byte, 2),
            condensed: has_flag(byte, 4),
            max: has_flag(byte, 8),
            others: byte / 16,
        }
    }
}

// The numbers of a record's bytes.
impl From<[u8; RECORD_SIZE]> for Numbers {
    ghost use Rattle.std.specs.Prelude.{◌≡◌};
    ghost use Rattle.record.specs.Numbers.{numbers_of};

    ghost from_gives = { λ bytes numbers. numbers ≡ numbers_of bytes };

    fn from(bytes: [u8; RECORD_SIZE]) -> Numbers {
        let [
            type_code,
            flags,
            variant,
            termination,
            l0,
            l1,
            l2,
            l3,
            m0,
            m1,
            m2,
            m3,
            a0,
            a1,
            n0,
            n1,
        ] = bytes;
        Numbers {
            type_code,
            flags: Flags::from(flags),
            variant,
            termination,
            length: u32::from_be_bytes([l0, l1, l2, l3]),
            most: u32::from_be_bytes([m0, m1, m2, m3]),
            place: Place {
                at: usize::from(u16::from_be_bytes([a0, a1])),
                len: ByteCount::of_number(u32::from(u16::from_be_bytes([n0, n1]))),
            },
        }
    }
}
