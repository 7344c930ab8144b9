// What encode and clear refuse for a variant's sake, its lengths and its mask's, and the mask that counts in them.
#![tactic(auto)]

ghost use Rattle.std.specs.Prelude.{◌≡◌};
ghost use Rattle.masks.specs.Mask.{mask_of};
ghost use Rattle.pack.specs.Source.{effective_mask};
ghost use Rattle.lengths.specs.Refusals.{standard_refusal, count_refusal};

use kinds::{BitLength, ByteCount, DataType, Refusal};
use masks::Mask;

// 21 to 25 and 36.
pub fn validate_standard(
    base_datatype: DataType,
    bit_len: BitLength,
    mask: Mask,
) -> Result<(), Refusal>
    ensures { result ≡ standard_refusal base_datatype bit_len.0 (mask_of mask.entry) }
{
    base_datatype.validate_bit_len(bit_len)?;
    if let Mask::Condensed(condensed) = mask {
        if bit_len.whole_bytes().bytes() < condensed.len() {
            return Err(Refusal::MaskLongerThanLength);
        }
    }
    Ok(())
}

// 33, 32 and 38. No shift reaches 64: a field of 64 bits holds every byte count.
pub fn validate_leading_length(bit_len: BitLength, data_len: ByteCount) -> Result<(), Refusal>
    ensures { result ≡ count_refusal bit_len.0 data_len.0 }
{
    let bits = bit_len.bits();
    if 64 < bits {
        return Err(Refusal::LengthFieldTooWide);
    }
    if bits == 64 {
        return Ok(());
    }
    if data_len.bytes() >> bits != 0 {
        return Err(Refusal::CountTooLarge);
    }
    if bits == 0 {
        return Err(Refusal::EmptyLengthField);
    }
    Ok(())
}

// An empty mask counts as none.
pub fn effective<'a>(mask: Mask<'a>) -> Mask<'a>
    ensures { mask_of result ≡ effective_mask (mask_of mask.entry) }
{
    match mask {
        Mask::Plain(given) | Mask::Condensed(given) if given.is_empty() => Mask::Absent,
        _ => mask,
    }
}
