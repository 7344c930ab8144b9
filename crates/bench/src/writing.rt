// The cases that write, each with all of its parts that do. What was written is cleared again where the field can be.
// Refusals are the numbers of RULES, which the bench compares with what C sees.
use super::compare::Want;
use super::fields::{ByteOrder, DataType, Field};

pub fn case_d() -> bool {
    let field = Field::standard(ByteOrder::HighLow, 8).at(0, 4);
    field.writes(b"\xFF", b"\x00\x00", Want::Written, b"\x0F\xF0")
        && field.clears(b"\x0F\xF0", Want::Written, b"\x00\x00")
}

pub fn case_e() -> bool {
    let field = Field::standard(ByteOrder::HighLow, 12);
    field.writes(b"\x0A\xBC", b"\x00\x00", Want::Written, b"\x0A\x0C")
}

pub fn case_f() -> bool {
    let field = Field::standard(ByteOrder::HighLow, 8);
    let masked = field.masked(b"\x0F");
    field.writes(b"\x01", b"\xF0", Want::Written, b"\xF1")
        && masked.writes(b"\xA5", b"\x33", Want::Written, b"\x35")
        && masked.clears(b"\x35", Want::Written, b"\x30")
}

pub fn case_i() -> bool {
    let field = Field::standard(ByteOrder::HighLow, 8).condensed(b"\xF0");
    field.writes(b"\x0A", b"\x05", Want::Written, b"\xA5")
        && field.clears(b"\xA5", Want::Written, b"\x05")
}

pub fn case_j() -> bool {
    let field = Field::standard(ByteOrder::HighLow, 4).condensed(b"\xF0");
    field.writes(b"\x0A", b"\x05", Want::Refused(36), b"\x05")
        && field.clears(b"\x05", Want::Refused(36), b"\x05")
}

pub fn case_k() -> bool {
    let field = Field::standard(ByteOrder::HighLow, 16).condensed(b"\xFF\xFF");
    field.writes(b"\x12", b"\x00\x00", Want::Written, b"\xFF\x12")
}

pub fn case_m() -> bool {
    let field = Field::leading(DataType::Unicode2String, ByteOrder::LowHigh, 8);
    field.appends(b"\x41\x00", Want::Written, 3, b"\x41\x02\x00\xEE")
}

pub fn case_p() -> bool {
    let field = Field::param(ByteOrder::LowHigh);
    field.appends(b"\x12\x34", Want::Written, 2, b"\x34\x12\xEE")
}

// Text behind a length field of so many bits, into room for 17 bytes.
fn writes_text(bits: u8, text: &[u8], want: Want, used: usize, after: &[u8; 17]) -> bool {
    let field = Field::leading(DataType::AsciiString, ByteOrder::HighLow, bits);
    field.appends(text, want, used, after)
}

fn refuses_text(bits: u8, text: &[u8], number: u32) -> bool {
    writes_text(bits, text, Want::Refused(number), 0, &[0xEE; 17])
}

pub fn case_q() -> bool {
    let after = b"\x0Fabcdefghijklmno\xEE";
    let wide = b"\x00\x00\x00\x00\x00\x00\x00\x01a\xEE\xEE\xEE\xEE\xEE\xEE\xEE\xEE";
    writes_text(4, b"abcdefghijklmno", Want::Written, 16, after)
        && refuses_text(4, b"abcdefghijklmnop", 33)
        && writes_text(64, b"a", Want::Written, 9, wide)
        && refuses_text(65, b"a", 32)
        && refuses_text(0, b"", 38)
        && refuses_text(0, b"a", 33)
}
