// A field's bits taken from its cut, under its mask, into the output. Counted first and then written once.
#![tactic(auto)]

ghost use Rattle.std.specs.Prelude.{◌≡◌, ◌+◌, ◌*◌, ◌≤◌, length};
ghost use Rattle.kinds.specs.Types.{bytes_for};
ghost use Rattle.order.specs.Order.{ordered};
ghost use Rattle.masks.specs.Mask.{condensed_mask, mask_of, plain_of};
ghost use Rattle.kinds.specs.Answers.{report_of_reading};
ghost use Rattle.kinds.specs.Outcomes.{gives, answer};
ghost use Rattle.unpack.specs.Found.{read_answer};
ghost use Rattle.unpack.specs.Unpacked.{found_in};
ghost use Rattle.unpack.specs.CodeUnpacked.{unpacked_run, run_found};

use bits::Run;
use kinds::{BitLength, ByteCount, ByteOrder, Counts, Failure, Lent, Refusal};
use masks::{Kept, Mask};

// The bits, and of them those that a plain mask keeps where there is one, into as many bytes as they take.
#[tactic(auto, unfolding(crate::specs::Unpacked::unpacked))]
fn extract_kept_bits(field: Run, mask: Option<&[u8]>, result_bytes: &mut [u8])
    requires { length result_bytes.old ≡ bytes_for field.bit_len.0 }
    ensures { result_bytes.new ≡ unpacked_run (plain_of mask.entry) field.entry }
{
    bits::extract_bits(field, result_bytes);
    if let Some(mask) = mask {
        masks::apply_bit_mask(
            result_bytes,
            mask,
            Kept::UnderOnes,
            field.bit_len,
            field.bit_pos,
        );
    }
}

// The bits without a mask or under a plain one.
#[tactic(auto, using(crate::proofs::Sizes::length_plain), unfolding(crate::specs::Found::read_answer))]
fn unpack_bits(field: Run, mask: Option<&[u8]>, output: &mut [u8]) -> Result<Counts, Failure>
    ensures { answer (report_of_reading result) output.new ≡ read_answer output.old (gives (run_found (plain_of mask.entry) field.entry)) }
{
    let bit_count = field.bit_len;
    let byte_count = bit_count.byte_count();
    let count = byte_count.bytes();
    if output.len() < count {
        return Err(Failure::Refused(Refusal::OutputLacksRoom));
    }
    extract_kept_bits(field, mask, &mut output[..count]);
    Ok(Counts {
        bit_count,
        byte_count,
    })
}

// The bits that a condensed mask gathers.
#[tactic(auto, using(crate::proofs::Sizes::length_condensed_field, crate::proofs::Sizes::gathered_is), unfolding(crate::specs::Found::read_answer))]
fn apply_condensed_mask_unpacking(
    field: Run,
    mask: &[u8],
    output: &mut [u8],
) -> Result<Counts, Failure>
    ensures { answer (report_of_reading result) output.new ≡ read_answer output.old (gives (run_found (condensed_mask mask.now) field.entry)) }
{
    let counts = condensed::condensed_size(mask, field.bit_len);
    let kept = counts.byte_count.bytes();
    if output.len() < kept {
        return Err(Failure::Refused(Refusal::OutputLacksRoom));
    }
    condensed::gather_bits(mask, field, &mut output[..kept]);
    Ok(counts)
}

// 26 and 27, and then the bits of the data. What it is told is no `Run` before that was tested, and no `Field`: the length may be of data bytes.
#[tactic(auto, using(crate::proofs::Sizes::length_turned), unfolding(crate::specs::Found::read_answer))]
pub fn unpack_data(
    bit_len: BitLength,
    bit_pos: usize,
    mask: Mask,
    data: Lent,
    byte_order: ByteOrder,
    output: &mut [u8],
) -> Result<Counts, Failure>
    ensures { answer (report_of_reading result) output.new ≡ read_answer output.old (found_in (mask_of mask.entry) bit_len.0 bit_pos (ordered byte_order «data».entry.bytes.now)) }
{
    if 7 < bit_pos {
        return Err(Failure::Refused(Refusal::BitPositionAboveSeven));
    }
    if ByteCount(data.bytes.len()).bit_end() < bit_pos + bit_len.bits() {
        return Err(Failure::Refused(Refusal::BitsPastCut));
    }
    let field = Run {
        data,
        byte_order,
        bit_pos,
        bit_len,
    };
    match mask {
        Mask::Absent => unpack_bits(field, None, output),
        Mask::Plain(mask) => unpack_bits(field, Some(mask), output),
        Mask::Condensed(mask) => apply_condensed_mask_unpacking(field, mask, output),
    }
}
