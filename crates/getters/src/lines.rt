// The two lines of what a record says, made once more by `new` and by the `new` for high-low: a number, and where that is 0 what
// the getters say.
use super::columns::{Answer, Bytes, OrMinus};
use coded::{DiagCodedType, DiagCodedTypeVariant, MinMaxLengthType, Place};
use kinds::Refusal;
use std::{fmt, io};

// What the getters of limits say.
#[derive(Clone, Copy, Debug, PartialEq, Eq)]
struct Limits(MinMaxLengthType);

impl fmt::Display for Limits {
    fn fmt<W: fmt::Write>(&self, f: &mut fmt::Formatter<W>) -> fmt::Result {
        let Limits(limits) = *self;
        let most = OrMinus(limits.max_length());
        let termination = u8::from(limits.termination());
        write!(f, "{} {most} {termination}", limits.min_length())
    }
}

// What a variant holds. Its limits are made once more by their `new`.
#[derive(Clone, Copy, Debug, PartialEq, Eq)]
struct Held<'a> {
    variant: DiagCodedTypeVariant,
    store: &'a [u8],
}

impl<'a> Held<'a> {
    fn part(self, place: Option<Place>) -> OrMinus<Bytes<'a>> {
        OrMinus(place.map(|_| Bytes(field::part_at(self.store, place))))
    }
}

impl fmt::Display for Held<'_> {
    fn fmt<W: fmt::Write>(&self, f: &mut fmt::Formatter<W>) -> fmt::Result {
        match self.variant {
            DiagCodedTypeVariant::LeadingLengthInfo(bits) => write!(f, "{}", bits.number()),
            DiagCodedTypeVariant::MinMaxLength(limits) => {
                let made = MinMaxLengthType::new(
                    limits.min_length(),
                    limits.max_length(),
                    limits.termination(),
                );
                write!(f, "{}", Answer(made.map(Limits)))
            }
            DiagCodedTypeVariant::StandardLength(standard) => {
                let bits = standard.bit_length.number();
                let condensed = u8::from(standard.condensed);
                let mask = self.part(standard.bit_mask);
                write!(f, "{bits} {condensed} {mask}")
            }
            DiagCodedTypeVariant::ParamLengthInfo(name) => write!(f, "{}", self.part(Some(name))),
        }
    }
}

// What the getters of a coded type say: the name where there is one, which `length_key_place` tells.
#[derive(Clone, Copy, Debug, PartialEq, Eq)]
struct Getters<'a> {
    coded_type: DiagCodedType,
    store: &'a [u8],
}

impl fmt::Display for Getters<'_> {
    fn fmt<W: fmt::Write>(&self, f: &mut fmt::Formatter<W>) -> fmt::Result {
        let Getters { coded_type, store } = *self;
        let code = u8::from(coded_type.base_datatype());
        let high_low = u8::from(coded_type.is_high_low_byte_order);
        let bits = OrMinus(coded_type.bit_len().map(|bits| bits.number()));
        let name = calls::length_key_name(coded_type, store);
        let refusal = name.err().map_or(0, |refusal| refusal.number());
        let key_place = coded_type.length_key_place();
        let name = OrMinus(key_place.map(|_| Bytes(parts::or_empty(name.ok(), store))));
        let variant = coded_type.type_();
        let variant_code = u8::from(variant);
        let held = Held { variant, store };
        write!(
            f,
            "{code} {high_low} {bits} {refusal} {name} {variant_code} {held}"
        )
    }
}

fn show_built(
    rt: &impl Print,
    built: Result<DiagCodedType, Refusal>,
    store: &[u8],
) -> io::Result<()> {
    let said = built.map(|coded_type| Getters { coded_type, store });
    println!(rt; " {}", Answer(said))
}

pub fn show(rt: &impl Print, said: DiagCodedType, store: &[u8]) -> io::Result<()> {
    let base_datatype = said.base_datatype();
    let type_ = said.type_();
    show_built(
        rt,
        DiagCodedType::new(base_datatype, type_, said.is_high_low_byte_order),
        store,
    )?;
    show_built(
        rt,
        DiagCodedType::new_high_low_byte_order(base_datatype, type_),
        store,
    )
}
