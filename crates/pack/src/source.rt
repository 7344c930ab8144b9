// Data with how they are packed, and a source of them with its mask, lent to a write.
ghost use Rattle.std.specs.Prelude.{◌≡◌, ◌^◌, ◌<◌};
ghost use Rattle.masks.specs.Mask.{mask_of};
ghost use Rattle.pack.specs.Source.{size_under};

use super::Packing;
use kinds::Lent;
use masks::Mask;

// Data and how they are packed. That the tail is short stands here and not in `Packing`, which definitions build without a proof.
#[derive(Clone, Copy, Debug, PartialEq, Eq)]
pub struct PackedData<'a> {
    pub packing: Packing,
    pub data: Lent<'a>,
    pub ghost tail_len_bound: { packing.tail_len.0 < 2 ^ 32 },
}

// Packed data, and the mask under which they are written. Under a condensed mask as many bits are written as it has.
#[derive(Clone, Copy, Debug, PartialEq, Eq)]
pub struct Source<'a> {
    pub packed: PackedData<'a>,
    pub mask: Mask<'a>,
    pub ghost bit_len_value: { packed.packing.bit_len.0 ≡ size_under (mask_of mask) packed.packing.bit_len.0 },
}
