// Data bytes behind a length field.
ghost use Rattle.std.specs.Prelude.{◌≡◌, ◌≤◌, ◌<◌, ◌%◌, ◌^◌, length, get_or};
ghost use Rattle.kinds.specs.Types.{bytes_for};
ghost use Rattle.order.specs.Order.{ordered};
ghost use Rattle.kinds.specs.CodePlaces.{outcome_of_search};
ghost use Rattle.length_field.specs.Leading.{big_endian, length_info};
ghost use Rattle.length_field.specs.CodePlace.{count_in, data_place, leading_place};

use kinds::{BitLength, ByteCount, ByteOrder, DataType, Failure, Lent, PosInfo, Refusal};

// The bytes of a length field, and the order in which they are read.
#[derive(Clone, Copy, Debug, PartialEq, Eq)]
struct LengthInfo<'a> {
    bytes: &'a [u8],
    byte_order: ByteOrder,
}

impl LengthInfo<'_> {
    // The byte at j of the ordered form.
    fn digit(self, j: usize) -> u8
        requires { j < length self.bytes.now }
        ensures { result ≡ get_or (ordered self.entry.byte_order self.entry.bytes.now) j 0 }
    {
        order::ordered_byte(self.bytes, self.byte_order, j)
    }

    // All of the bytes, big-endian. A loop over the index: a byte of the ordered form is read by its index alone,
    // and a fold's closure would not know that its sum has room for one byte more.
    #[tactic(auto, using(crate::proofs::LengthField::big_endian_next, crate::proofs::LengthField::byte_more, crate::proofs::LengthField::byte_room), unfolding(crate::specs::Leading::big_endian))]
    fn wide(self) -> usize
        requires { length self.bytes.now ≤ 8 }
        ensures { result ≡ big_endian (λ j. get_or (ordered self.entry.byte_order self.entry.bytes.now) j 0) (length self.entry.bytes.now) }
    {
        let mut len = 0;
        for j in 0..self.bytes.len() {
            len = 256 * len + usize::from(self.digit(j));
        }
        len
    }

    // The number in a length field of one, two, three, four, or five to eight bytes.
    #[tactic(auto, using(crate::proofs::LengthField::read_none, crate::proofs::LengthField::read_one, crate::proofs::LengthField::read_two, crate::proofs::LengthField::read_three, crate::proofs::LengthField::read_four, crate::proofs::LengthField::read_some, crate::proofs::LengthField::read_many))]
    fn usize_from_bytes(self) -> Option<ByteCount>
        ensures { result ≡ length_info (ordered self.entry.byte_order self.entry.bytes.now) }
    {
        let number = match self.bytes.len() {
            1 => usize::from(self.digit(0)),
            2 => usize::from(u16::from_be_bytes([self.digit(0), self.digit(1)])),
            3 => u32::from_be_bytes([0, self.digit(0), self.digit(1), self.digit(2)]) as usize,
            4 => {
                u32::from_be_bytes([
                    self.digit(0),
                    self.digit(1),
                    self.digit(2),
                    self.digit(3),
                ]) as usize
            }
            5..=8 => self.wide(),
            _ => return None,
        };
        Some(ByteCount(number))
    }
}

// The lowest bits of a number.
#[tactic(auto, using(crate::proofs::LengthField::all_bits))]
fn lowest_bits(number: ByteCount, bit_len: BitLength) -> ByteCount
    ensures { result.0 ≡ number.0 % 2 ^ bit_len.0 }
{
    let bits = bit_len.bits();
    if bits < 64 {
        return ByteCount(number.bytes() % (1 << bits));
    }
    number
}

// How many data bytes a length field of so many bits says.
// The slice comes by itself: of a slice in a struct the check does not say here that its items are below 256.
#[tactic(auto, using(crate::proofs::LengthField::too_wide, crate::proofs::LengthField::counted))]
fn data_byte_count(
    length_info_bytes: &[u8],
    byte_order: ByteOrder,
    bits: BitLength,
) -> Result<ByteCount, Refusal>
    requires bits_nonzero { 0 < bits.0 }
    requires length_info_bytes_len { length length_info_bytes.now ≡ bytes_for bits.0 }
    ensures { result ≡ count_in bits.0 (ordered byte_order length_info_bytes.now) }
{
    let length_info = LengthInfo {
        bytes: length_info_bytes,
        byte_order,
    };
    let number = length_info
        .usize_from_bytes()
        .ok_or(Refusal::LengthFieldTooWide)?;
    Ok(lowest_bits(number, bits))
}

// The data bytes behind a length field of so many bits, which are as many as it says.
#[tactic(auto, unfolding(crate::specs::Leading::leading_count))]
fn behind_length_field(
    uds_payload: Lent,
    byte_pos: usize,
    byte_order: ByteOrder,
    bits: BitLength,
) -> Result<PosInfo, Failure>
    requires { 0 < bits.0 }
    ensures { outcome_of_search result ≡ data_place byte_order bits.0 uds_payload.entry.bytes.now byte_pos }
{
    let payload = uds_payload.bytes;
    let start_pos = kinds::saturating_add(byte_pos, bits.byte_count().bytes());
    if payload.len() < start_pos {
        return Err(Failure::Refused(Refusal::LengthFieldPastPayload));
    }
    let len = data_byte_count(&payload[byte_pos..start_pos], byte_order, bits)?;
    let end_pos = kinds::saturating_add(start_pos, len.bytes());
    if payload.len() < end_pos {
        return Err(Failure::NotEnoughData {
            expected: end_pos,
            actual: payload.len(),
        });
    }
    Ok(PosInfo {
        bit_len: len.bit_length(),
        start_pos,
    })
}

// The bits of the length field are not part of the result: the data bytes start at the byte edge behind it.
pub fn pos_info_leading_len(
    base_datatype: DataType,
    uds_payload: Lent,
    byte_pos: usize,
    byte_order: ByteOrder,
    bits: BitLength,
) -> Result<PosInfo, Failure>
    ensures { outcome_of_search result ≡ leading_place byte_order bits.0 uds_payload.entry.bytes.now byte_pos base_datatype }
{
    base_datatype.validate_bit_len(bits)?;
    behind_length_field(uds_payload, byte_pos, byte_order, bits)
}
