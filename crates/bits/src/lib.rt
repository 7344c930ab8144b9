// Bits of bytes: one bit read or set, and a run of bits taken out of bytes.
#![tactic(auto)]

mod run; // run.rt: a run of bits of bytes that are lent

ghost use Rattle.std.specs.Prelude.{◌≡◌, ◌+◌, ◌*◌, ◌%◌, ◌^◌, ◌<◌, ◌≤◌, length, replicate, ltb};
ghost use Rattle.kinds.specs.Types.{bytes_for};
ghost use Rattle.order.specs.Order.{ordered};
ghost use Rattle.bits.specs.Bits.{bit, bit_at, number, or_bit, or_bit_checked};
ghost use Rattle.bits.specs.Moves.{first, from, extracted};
ghost use Rattle.bits.specs.CodeRuns.{bits_of_run, extracted_run};

use kinds::{ByteCount, ByteOrder};
pub use run::Run;

// Bit i of bytes, by the byte that it is in.
#[tactic(auto, using(crate::proofs::Stores::bit_code))]
pub fn bit_of(byte: u8, i: usize) -> u8
    ensures { result ≡ bit byte (i % 8) }
{
    (byte >> kinds::bit_in_byte(i)) & 1
}

// Bit i of the bytes.
#[tactic(auto, using(crate::proofs::Stores::bit_at_code))]
pub fn bit_at(data: &[u8], i: usize) -> u8
    requires { i < 8 * length «data».now }
    ensures { result ≡ bit_at «data».now i }
{
    let byte = data.len() - kinds::byte_from_last(i) - 1;
    bit_of(data[byte], i)
}

// ORs the lowest bit of a value into a bit, which it clears first or not. Answers whether there is such a byte. Name, parameters and answer
// are those of the Rust.
#[tactic(auto, using(crate::proofs::Stores::set_or_bit))]
pub fn set_bit_checked(
    result_bytes: &mut [u8],
    dst_byte_index: usize,
    dst_bit_offset: usize,
    bit_value: u8,
    clear_bit: bool,
) -> bool
    requires { dst_bit_offset < 8 }
    ensures value { result ≡ ltb dst_byte_index (length result_bytes.old) }
    ensures result_bytes_after { result_bytes.new ≡ or_bit_checked clear_bit result_bytes.old dst_byte_index dst_bit_offset bit_value }
{
    if dst_byte_index < result_bytes.len() {
        let mut byte = result_bytes[dst_byte_index];
        if clear_bit {
            byte &= !(1 << dst_bit_offset);
        }
        byte |= (bit_value & 1) << dst_bit_offset;
        result_bytes[dst_byte_index] = byte;
        true
    } else {
        false
    }
}

// Bit i of the ordered form of the bytes.
#[tactic(auto, using(crate::proofs::Stores::ordered_code))]
pub fn ordered_bit_at(data: &[u8], byte_order: ByteOrder, i: usize) -> u8
    requires { i < 8 * length «data».now }
    ensures { result ≡ bit_at (ordered byte_order «data».now) i }
{
    let byte = data.len() - kinds::byte_from_last(i) - 1;
    bit_of(order::ordered_byte(data, byte_order, byte), i)
}

// ORs the lowest bit of a value into bit i of the bytes, which it clears first or not, as `set_bit_checked` is told.
pub fn set_bit_at(data: &mut [u8], i: usize, bit_value: u8, clear_bit: bool)
    requires { i < 8 * length «data».old }
    ensures { «data».new ≡ or_bit clear_bit «data».old i bit_value }
{
    let byte = data.len() - kinds::byte_from_last(i) - 1;
    set_bit_checked(data, byte, kinds::bit_in_byte(i), bit_value, clear_bit);
}

// Zeros in all of the bytes. It stays beside the library's method: two wrong edits are of it.
pub fn zero(data: &mut [u8])
    ensures { «data».new ≡ replicate (length «data».old) 0 }
{
    data.fill(0);
}

impl<'a> Run<'a> {
    // Bit i of the run.
    pub fn bit_at(self, i: usize) -> u8
        requires { i < self.bit_len.0 }
        ensures { result ≡ bits_of_run self.entry i }
    {
        ordered_bit_at(self.data.bytes, self.byte_order, self.bit_pos + i)
    }

    // The byte of the ordered form that has so many behind it, and 0 where there is none.
    #[tactic(auto, using(crate::proofs::Windows::eight_there, crate::proofs::Windows::eight_none))]
    fn byte_before(self, behind: usize) -> usize
        ensures value { result ≡ number 8 (from (8 * behind) (bit_at (ordered self.entry.byte_order self.entry.«data».bytes.now))) }
        ensures bound { result < 256 }
    {
        let bytes = self.data.bytes;
        if behind >= bytes.len() {
            return 0;
        }
        let at = bytes.len() - 1 - behind;
        usize::from(order::ordered_byte(bytes, self.byte_order, at))
    }

    // Eight bits from bit i on as one byte, with zeros past the end. They lie in two bytes, which are read once.
    #[tactic(auto, using(crate::proofs::Windows::byte_made, crate::proofs::Windows::byte_fits))]
    fn byte_from(self, i: usize) -> u8
        requires { i < self.bit_len.0 }
        ensures { result ≡ number 8 (from i (first self.entry.bit_len.0 (bits_of_run self.entry))) }
    {
        let start = self.bit_pos + i;
        let behind = kinds::byte_from_last(start);
        let two = self.byte_before(behind) + 256 * self.byte_before(behind + 1);
        let count = (self.bit_len.bits() - i).min(8);
        ((two >> kinds::bit_in_byte(start)) % (1 << count)) as u8
    }
}

// Takes a run of bits out, right-aligned, byte by byte: bit by bit it would take longer than the Rust in some builds.
#[tactic(auto, using(crate::proofs::Written::written_laws), unfolding(crate::specs::Moves::extracted))]
pub fn extract_bits(run: Run, result_bytes: &mut [u8])
    requires { length result_bytes.old ≡ bytes_for run.bit_len.0 }
    ensures { result_bytes.new ≡ extracted_run run.entry }
{
    let count = result_bytes.len();
    for (index, byte) in result_bytes.iter_mut().enumerate() {
        *byte = run.byte_from(ByteCount(count - 1 - index).bit_end());
    }
}
