// Patterns: the number that bits make. Bytes become one and one becomes bytes, the most significant first.
ghost use Rattle.std.specs.Prelude.{◌≡◌, ◌-◌, ◌*◌, ◌^◌, ◌≤◌, length};
ghost use Rattle.kinds.specs.Types.{bytes_for};
ghost use Rattle.bits.specs.Bits.{bit, bit_at, number, packed};

use kinds::ByteCount;

// What the highest of so many bits counts. The width is asked for here and in `lowest`: a `Form`, which holds it, has an encoding besides.
pub fn high_bit(width: usize) -> u64
    requires le_width { 2 ≤ width }
    requires width_bound { width ≤ 64 }
    ensures { result ≡ 2 ^ (width - 1) }
{
    1 << (width - 1)
}

// All bits of the bytes.
#[tactic(auto, using(crate::proofs::Bytes::front_laws), unfolding(bits::specs::Bits::number))]
fn whole(bytes: &[u8]) -> u64
    requires { length bytes.now ≤ 8 }
    ensures { result ≡ number (8 * length bytes.now) (bit_at bytes.now) }
{
    let mut pattern = 0;
    for &byte in bytes {
        pattern = 256 * pattern + u64::from(byte);
    }
    pattern
}

// The lowest bits of the bytes. Those above are ignored.
#[tactic(auto, using(crate::proofs::Bytes::lowest_bits))]
pub fn lowest(bytes: &[u8], width: usize) -> u64
    requires le_width { 2 ≤ width }
    requires width_bound { width ≤ 64 }
    requires bytes_len { length bytes.now ≡ bytes_for width }
    ensures { result ≡ number width (bit_at bytes.now) }
{
    whole(bytes) & (u64::MAX >> (64 - width))
}

// Writes a pattern to all of the bytes. By a shift for each: a copy would call memcpy, which the archive does without.
#[tactic(auto, using(crate::proofs::Bytes::written_laws))]
pub fn put(pattern: u64, bytes: &mut [u8])
    requires { length bytes.old ≤ 8 }
    ensures { bytes.new ≡ packed (length bytes.old) (bit pattern) }
{
    let count = bytes.len();
    for (index, byte) in bytes.iter_mut().enumerate() {
        *byte = ((pattern >> ByteCount(count - 1 - index).bit_end()) & 0xff) as u8;
    }
}
