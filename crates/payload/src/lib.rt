// A payload that is a slice with a used length: growth, and a cut-out of it written or cleared.
#![tactic(auto)]

mod held; // held.rt: a payload that a call is lent to change

ghost use Rattle.std.specs.Prelude.{◌≡◌, ◌≤◌, max, length};
ghost use Rattle.masks.specs.Mask.{mask_of};
ghost use Rattle.pack.specs.CodePacking.{source_of};
ghost use Rattle.payload.specs.CodeHeld.{held, SameSlice, Writes, Clears};
ghost use Rattle.payload.specs.Writing.{grown, cut_end, writing, clearing};

pub use held::Payload;
use kinds::{BitLength, ByteOrder, Failure, Position, Refusal};
use masks::Mask;
use pack::Source;

// Where the cut-out for so many bits ends. That the bit position is at most 7 both callers tested: a type for that would be made in these two alone.
fn cut_end(at: Position, bit_len: BitLength) -> usize
    requires { at.bit_pos ≤ 7 }
    ensures { result ≡ cut_end at.byte_pos at.bit_pos bit_len.0 }
{
    kinds::saturating_add(at.byte_pos, bit_len.byte_count_from(at.bit_pos).bytes())
}

impl Payload<'_> {
    // Zeros from the used length up to an end, where that is higher, and they are used from then on.
    #[tactic(auto, unfolding(crate::specs::Writing::grown, crate::specs::Writing::spliced))]
    fn grow(&mut self, end_pos: usize)
        requires end_pos_in_bounds { end_pos ≤ length self.old.bytes.now }
        ensures same_slice { SameSlice self.old self.new }
        ensures bytes_value { self.new.bytes.now ≡ grown self.old.used end_pos self.old.bytes.now }
        ensures used_value { self.new.used ≡ max self.old.used end_pos }
    {
        let used = self.used;
        if used < end_pos {
            bits::zero(&mut self.bytes[used..end_pos]);
            self.used = end_pos;
        }
    }

    // Writes a source at a position, and grows to hold it: 26 and 40, or all of it.
    #[tactic(auto, unfolding(crate::specs::Writing::writing, crate::specs::Writing::in_cut_out, crate::specs::Writing::spliced))]
    pub fn write_source(
        &mut self,
        source: Source,
        byte_order: ByteOrder,
        at: Position,
    ) -> Result<(), Failure>
        ensures { Writes result self.old self.new (writing byte_order (source_of source.entry) (held self.old) at.byte_pos at.bit_pos) }
    {
        if 7 < at.bit_pos {
            return Err(Failure::Refused(Refusal::BitPositionAboveSeven));
        }
        let end_pos = cut_end(at, source.packed.packing.bit_len);
        if self.bytes.len() < end_pos {
            return Err(Failure::Refused(Refusal::PayloadLacksRoom));
        }
        self.grow(end_pos);
        let cut_out = &mut self.bytes[at.byte_pos..end_pos];
        cutout::write_cut_out(cut_out, byte_order, source, at.bit_pos);
        Ok(())
    }

    // Takes out the bits that a field owns, in the cut-out that a write would use: 26 and 30, or all of them.
    #[tactic(auto, unfolding(crate::specs::Writing::clearing, crate::specs::Writing::in_cut_out, crate::specs::Writing::spliced))]
    pub fn clear_source(
        &mut self,
        bit_len: BitLength,
        mask: Mask,
        byte_order: ByteOrder,
        at: Position,
    ) -> Result<(), Failure>
        ensures { Clears result self.old self.new (clearing byte_order (mask_of mask.entry) bit_len.0 (held self.old) at.byte_pos at.bit_pos) }
    {
        if 7 < at.bit_pos {
            return Err(Failure::Refused(Refusal::BitPositionAboveSeven));
        }
        let end_pos = cut_end(at, bit_len);
        if self.used < end_pos {
            return Err(Failure::NotEnoughData {
                expected: end_pos,
                actual: self.used,
            });
        }
        let cut_out = &mut self.bytes[at.byte_pos..end_pos];
        cutout::clear_cut_out(cut_out, byte_order, bit_len, mask, at.bit_pos);
        Ok(())
    }
}
