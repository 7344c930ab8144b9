// A coded type with its store taken apart into a field: what its variant says, its mask as a part of the store, and what is
// refused before a call's own rules.
#![tactic(auto)]

ghost use Rattle.std.specs.Prelude.{◌≡◌, length, OnOk};
ghost use Rattle.kinds.specs.Slices.{place_behind};
ghost use Rattle.masks.specs.Mask.{mask_of};
ghost use Rattle.field.specs.Field.{outside, part_of, part_at, start_of, start_at, store_place, mask_at, mask_in, shape_of, field_of, said_of};
ghost use Rattle.field.specs.Refusals.{sizes_of, slices_refusal, Fit, place_refusal, description_refusal};

use coded::{DiagCodedType, DiagCodedTypeVariant, MinMaxLengthType, Place};
use kinds::{BitLength, ByteCount, ByteOrder, DataType, Refusal, SLICE_LIMIT, STORE_LIMIT};
use masks::Mask;

// What a variant says, but for the parts of the store that it speaks of.
#[derive(Clone, Copy, Debug, PartialEq, Eq)]
pub enum Shape {
    Leading(BitLength),
    MinMax(MinMaxLengthType),
    Standard(BitLength),
    Param,
}

// A coded type with its store taken apart.
#[derive(Clone, Copy, Debug, PartialEq, Eq)]
pub struct Field<'a> {
    pub base_datatype: DataType,
    pub byte_order: ByteOrder,
    pub shape: Shape,
    pub mask: Mask<'a>,
}

impl<'a> Field<'a> {
    // The mask of a field is a part of the store.
    pub fn of(coded_type: DiagCodedType, store: &'a [u8]) -> Field<'a>
        ensures { said_of result ≡ field_of coded_type store.now }
    {
        Field {
            base_datatype: coded_type.base_datatype,
            byte_order: coded_type
                .base_datatype
                .byte_order(coded_type.is_high_low_byte_order),
            shape: shape_of(coded_type.type_),
            mask: mask_in(store, coded_type.type_),
        }
    }
}

fn shape_of(type_: DiagCodedTypeVariant) -> Shape
    ensures { result ≡ shape_of type_ }
{
    match type_ {
        DiagCodedTypeVariant::LeadingLengthInfo(bits) => Shape::Leading(bits),
        DiagCodedTypeVariant::MinMaxLength(limits) => Shape::MinMax(limits),
        DiagCodedTypeVariant::StandardLength(standard) => Shape::Standard(standard.bit_length),
        DiagCodedTypeVariant::ParamLengthInfo(_) => Shape::Param,
    }
}

// The part of the store that a variant speaks of.
fn store_place(type_: DiagCodedTypeVariant) -> Option<Place>
    ensures { result ≡ store_place type_ }
{
    match type_ {
        DiagCodedTypeVariant::LeadingLengthInfo(_) | DiagCodedTypeVariant::MinMaxLength(_) => None,
        DiagCodedTypeVariant::StandardLength(standard) => standard.bit_mask,
        DiagCodedTypeVariant::ParamLengthInfo(name) => Some(name),
    }
}

// The mask at a place of the store.
fn mask_at<'a>(store: &'a [u8], place: Place, condensed: bool) -> Mask<'a>
    ensures { mask_of result ≡ mask_at store.now (Some place) condensed }
{
    let mask = part(store, place);
    if condensed {
        Mask::Condensed(mask)
    } else {
        Mask::Plain(mask)
    }
}

fn mask_in<'a>(store: &'a [u8], type_: DiagCodedTypeVariant) -> Mask<'a>
    ensures { mask_of result ≡ mask_in store.now type_ }
{
    match type_ {
        DiagCodedTypeVariant::StandardLength(standard) => match standard.bit_mask {
            Some(place) => mask_at(store, place, standard.condensed),
            None => Mask::Absent,
        },
        _ => Mask::Absent,
    }
}

fn is_outside(place: Place, store_len: ByteCount) -> bool
    ensures { result ≡ outside place store_len.0 }
{
    let end = store_len.bytes();
    end < place.at || end - place.at < place.len.bytes()
}

// A part of the store, lent on, and the empty part where it is outside.
fn part<'a>(store: &'a [u8], place: Place) -> &'a [u8]
    ensures result_value { result.now ≡ part_of store.now place }
    ensures ref_ptr_value { result.ref_ptr ≡ place_behind (start_of (length store.now) place) store.entry.ref_ptr }
{
    if is_outside(place, ByteCount(store.len())) {
        return &store[..0];
    }
    &store[place.at..place.at + place.len.bytes()]
}

// The part of the store at an optional place, and the empty part where there is none.
pub fn part_at<'a>(store: &'a [u8], place: Option<Place>) -> &'a [u8]
    ensures result_value { result.now ≡ part_at store.now place }
    ensures ref_ptr_value { result.ref_ptr ≡ place_behind (start_at (length store.now) place) store.entry.ref_ptr }
{
    match place {
        Some(there) => part(store, there),
        None => &store[..0],
    }
}

// How many bytes a call lends beside a record: a store and two other slices, with so many used of the last. Where a call lends
// fewer, or none is used, the numbers are 0.
#[derive(Clone, Copy, Debug, PartialEq, Eq)]
pub struct Sizes {
    pub store_len: ByteCount,
    pub first_len: ByteCount,
    pub second_len: ByteCount,
    pub used: usize,
}

impl Sizes {
    pub fn of(store: &[u8], first: &[u8], second: &[u8], used: usize) -> Sizes
        ensures { result ≡ sizes_of store.now first.now second.now used }
    {
        Sizes {
            store_len: ByteCount(store.len()),
            first_len: ByteCount(first.len()),
            second_len: ByteCount(second.len()),
            used,
        }
    }
}

// 43 of a record and of each other slice, and 44 of the last of them.
#[tactic(auto, using(crate::proofs::Slices::slices_fit))]
pub fn validate_slices(record_len: ByteCount, sizes: Sizes) -> Result<(), Refusal>
    ensures result_value { result ≡ slices_refusal record_len.0 sizes.store_len.0 sizes.first_len.0 sizes.second_len.0 sizes.used }
    ensures fits { OnOk result (Fit sizes) }
{
    if SLICE_LIMIT < record_len.bytes() {
        return Err(Refusal::SliceTooLong);
    }
    if STORE_LIMIT < sizes.store_len.bytes() {
        return Err(Refusal::SliceTooLong);
    }
    if SLICE_LIMIT < sizes.first_len.bytes() {
        return Err(Refusal::SliceTooLong);
    }
    if SLICE_LIMIT < sizes.second_len.bytes() {
        return Err(Refusal::SliceTooLong);
    }
    if sizes.second_len.bytes() < sizes.used {
        return Err(Refusal::UsedPastSlice);
    }
    Ok(())
}

// 42, of the part of the store that a coded type speaks of.
fn validate_place(place: Option<Place>, store_len: ByteCount) -> Result<(), Refusal>
    ensures { result ≡ place_refusal place store_len.0 }
{
    match place {
        Some(there) if is_outside(there, store_len) => Err(Refusal::MalformedRecord),
        _ => Ok(()),
    }
}

// 42, 12, 13, 10 and 11, however the coded type was made.
pub fn validate_description(coded_type: DiagCodedType, store_len: ByteCount) -> Result<(), Refusal>
    ensures { result ≡ description_refusal coded_type store_len.0 }
{
    validate_place(store_place(coded_type.type_), store_len)?;
    coded_type.validate()
}
