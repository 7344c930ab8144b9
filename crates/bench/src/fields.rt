// The fields of the cases: what the record says, a mask that is the whole store, and where the field stands.

// The types, ends, variants and orders are told here once more, and not taken from the library: the bench makes its records
// by docs/RECORDS.md alone, so that a wrong code of the library's own shows.

// The types that the cases have, by their codes.
#[derive(Clone, Copy, Debug, PartialEq, Eq)]
pub enum DataType {
    UInt32 = 2,
    AsciiString = 4,
    Unicode2String = 6,
    ByteField = 7,
}

// How a text of no fixed length ends, by the codes.
#[derive(Clone, Copy, Debug, PartialEq, Eq)]
pub enum Termination {
    EndOfPdu = 1,
    Zero = 2,
    HexFF = 3,
}

// The variants, by their codes.
#[derive(Clone, Copy, Debug, PartialEq, Eq)]
enum Variant {
    LeadingLengthInfo = 1,
    MinMaxLength = 2,
    StandardLength = 3,
    ParamLengthInfo = 4,
}

#[derive(Clone, Copy, Debug, PartialEq, Eq)]
pub enum ByteOrder {
    LowHigh = 0,
    HighLow = 1,
}

// A mask, and how it is used.
#[derive(Clone, Copy, Debug, PartialEq, Eq)]
enum Mask<'a> {
    Plain(&'a [u8]),
    Condensed(&'a [u8]),
}

// The flags that are added to the order's.
const MASKED: u8 = 2;

const CONDENSED: u8 = 4;

const MAXIMUM: u8 = 8;

#[derive(Clone, Copy, Debug, PartialEq, Eq)]
pub struct Field<'a> {
    variant: Variant,
    data_type: DataType,
    order: ByteOrder,
    termination: Option<Termination>,
    length: u8,
    maximum: Option<u8>,
    mask: Option<Mask<'a>>,
    pub byte_pos: usize,
    pub bit_pos: usize,
}

impl<'a> Field<'a> {
    fn new(variant: Variant, data_type: DataType, order: ByteOrder) -> Self {
        Field {
            variant,
            data_type,
            order,
            termination: None,
            length: 0,
            maximum: None,
            mask: None,
            byte_pos: 0,
            bit_pos: 0,
        }
    }

    // UInt32 of so many bits.
    pub fn standard(order: ByteOrder, bits: u8) -> Self {
        Field {
            length: bits,
            ..Field::new(Variant::StandardLength, DataType::UInt32, order)
        }
    }

    // A byte type behind a length field of so many bits.
    pub fn leading(data_type: DataType, order: ByteOrder, bits: u8) -> Self {
        Field {
            length: bits,
            ..Field::new(Variant::LeadingLengthInfo, data_type, order)
        }
    }

    // Text of so many bytes at least and at most 4.
    pub fn text(
        data_type: DataType,
        order: ByteOrder,
        minimum: u8,
        termination: Termination,
    ) -> Self {
        Field {
            termination: Some(termination),
            length: minimum,
            maximum: Some(4),
            ..Field::new(Variant::MinMaxLength, data_type, order)
        }
    }

    // UInt32 whose length a parameter with an empty name gives.
    pub fn param(order: ByteOrder) -> Self {
        Field::new(Variant::ParamLengthInfo, DataType::UInt32, order)
    }

    pub fn masked(self, mask: &'a [u8]) -> Self {
        Field {
            mask: Some(Mask::Plain(mask)),
            ..self
        }
    }

    pub fn condensed(self, mask: &'a [u8]) -> Self {
        Field {
            mask: Some(Mask::Condensed(mask)),
            ..self
        }
    }

    pub fn at(self, byte_pos: usize, bit_pos: usize) -> Self {
        Field {
            byte_pos,
            bit_pos,
            ..self
        }
    }

    // The store: the mask alone.
    pub fn store(&self) -> &'a [u8] {
        match self.mask {
            None => b"",
            Some(Mask::Plain(mask) | Mask::Condensed(mask)) => mask,
        }
    }

    fn flags(&self) -> u8 {
        let of_mask = match self.mask {
            None => 0,
            Some(Mask::Plain(_)) => MASKED,
            Some(Mask::Condensed(_)) => MASKED | CONDENSED,
        };
        let of_maximum = if self.maximum.is_some() { MAXIMUM } else { 0 };
        self.order as u8 | of_mask | of_maximum
    }

    // The record, as docs/RECORDS.md says it.
    pub fn record(&self) -> [u8; 16] {
        let mut record = [0; 16];
        record[0] = self.data_type as u8;
        record[1] = self.flags();
        record[2] = self.variant as u8;
        record[3] = self.termination.map_or(0, |termination| termination as u8);
        record[7] = self.length;
        record[11] = self.maximum.unwrap_or(0);
        let [.., high, low] = self.store().len().to_be_bytes();
        record[14] = high;
        record[15] = low;
        record
    }
}
