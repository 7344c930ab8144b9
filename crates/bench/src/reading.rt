// The cases that read, each with all of its parts that do.
// Refusals are the numbers of RULES, which the bench compares with what C sees.
use super::compare::Want;
use super::fields::{ByteOrder, DataType, Field, Termination};

// What is left of the output where nothing is read.
const UNTOUCHED: [u8; 4] = [0xEE; 4];

pub fn case_a() -> bool {
    let field = Field::standard(ByteOrder::HighLow, 8).at(1, 0);
    let want = Want::Read { bits: 8, bytes: 1 };
    field.reads(b"\x12\x34\x56", want, b"\x34\xEE\xEE\xEE")
}

pub fn case_b() -> bool {
    let field = Field::standard(ByteOrder::LowHigh, 16);
    let want = Want::Read { bits: 16, bytes: 2 };
    field.reads(b"\x12\x34", want, b"\x34\x12\xEE\xEE")
}

pub fn case_c() -> bool {
    let field = Field::standard(ByteOrder::HighLow, 4).at(0, 4);
    let want = Want::Read { bits: 4, bytes: 1 };
    field.reads(b"\xA5", want, b"\x0A\xEE\xEE\xEE")
}

pub fn case_d() -> bool {
    let field = Field::standard(ByteOrder::HighLow, 8).at(0, 4);
    field.reads(b"\x12\x34", Want::Refused(27), &UNTOUCHED)
}

pub fn case_g() -> bool {
    let field = Field::standard(ByteOrder::HighLow, 16).masked(b"\x0F");
    let want = Want::Read { bits: 16, bytes: 2 };
    field.reads(b"\xFF\xFF", want, b"\x0F\x0F\xEE\xEE")
}

pub fn case_h() -> bool {
    let field = Field::standard(ByteOrder::HighLow, 4)
        .masked(b"\x00")
        .at(0, 4);
    let want = Want::Read { bits: 4, bytes: 1 };
    field.reads(b"\xF0", want, b"\x0F\xEE\xEE\xEE")
}

pub fn case_i() -> bool {
    let field = Field::standard(ByteOrder::HighLow, 8).condensed(b"\xF0");
    let want = Want::Read { bits: 4, bytes: 1 };
    field.reads(b"\xA5", want, b"\x0A\xEE\xEE\xEE")
}

pub fn case_j() -> bool {
    let field = Field::standard(ByteOrder::HighLow, 4).condensed(b"\xF0");
    let want = Want::Read { bits: 4, bytes: 1 };
    field.reads(b"\x0F", want, b"\x00\xEE\xEE\xEE")
}

pub fn case_k() -> bool {
    let field = Field::standard(ByteOrder::HighLow, 16).condensed(b"\x00\x01\xFF\xFF");
    let want = Want::Read { bits: 16, bytes: 1 };
    field.reads(b"\x00\x01", want, b"\x01\xEE\xEE\xEE")
}

pub fn case_l() -> bool {
    let field = Field::leading(DataType::ByteField, ByteOrder::HighLow, 8);
    let whole = Want::Read { bits: 16, bytes: 2 };
    let cut_off = Want::Short {
        expected: 5,
        actual: 2,
    };
    field.reads(b"\x02\x41\x42\x43", whole, b"\x41\x42\xEE\xEE")
        && field.reads(b"\x04\x41", cut_off, &UNTOUCHED)
}

pub fn case_m() -> bool {
    let field = Field::leading(DataType::Unicode2String, ByteOrder::LowHigh, 8);
    field.reads(b"\x41\x02\x00", Want::Refused(25), &UNTOUCHED)
}

fn ascii(minimum: u8, termination: Termination) -> Field<'static> {
    Field::text(
        DataType::AsciiString,
        ByteOrder::HighLow,
        minimum,
        termination,
    )
}

// Text that starts past the payload.
fn reads_past(minimum: u8, termination: Termination, want: Want) -> bool {
    let field = ascii(minimum, termination).at(5, 0);
    field.reads(b"\x00\x00", want, &UNTOUCHED)
}

pub fn case_n() -> bool {
    let field = ascii(2, Termination::Zero);
    let text = Want::Read { bits: 24, bytes: 3 };
    let nothing = Want::Read { bits: 0, bytes: 0 };
    let short = Want::Short {
        expected: 6,
        actual: 2,
    };
    field.reads(b"\x00\x00\x41\x00", text, b"\x00\x00\x41\xEE")
        && reads_past(0, Termination::HexFF, nothing)
        && reads_past(0, Termination::EndOfPdu, nothing)
        && reads_past(0, Termination::Zero, Want::Refused(34))
        && reads_past(1, Termination::EndOfPdu, short)
}

// Three bytes of text of two bytes to a character.
fn reads_torn(termination: Termination, want: Want, after: &[u8; 4]) -> bool {
    let field = Field::text(DataType::Unicode2String, ByteOrder::LowHigh, 0, termination);
    field.reads(b"\x41\x00\x42", want, after)
}

pub fn case_o() -> bool {
    let short = Want::Short {
        expected: 4,
        actual: 3,
    };
    let text = Want::Read { bits: 24, bytes: 3 };
    reads_torn(Termination::Zero, Want::Refused(34), &UNTOUCHED)
        && reads_torn(Termination::HexFF, short, &UNTOUCHED)
        && reads_torn(Termination::EndOfPdu, text, b"\x00\x41\x42\xEE")
}

pub fn case_p() -> bool {
    let field = Field::param(ByteOrder::LowHigh);
    let want = Want::Read { bits: 16, bytes: 2 };
    field.lends(b"\x34\x12", 2, want, b"\x34\x12")
}
