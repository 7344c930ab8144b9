// The functions that C calls, by way of `dct_c`, and nothing else. Every byte pattern and every number gets an answer: nothing is required.
// What they take and give is what C can pass: numbers, arrays of them, slices, and a used length beside one.
#![tactic(auto)]

ghost use Rattle.std.specs.Prelude.{◌≡◌, ◌∷◌, length};
ghost use Rattle.kinds.specs.Answers.{numbered, report_of_check};
ghost use Rattle.classes.specs.Classes.{class_letter};
ghost use Rattle.kinds.specs.Outcomes.{answer};
ghost use Rattle.payload.specs.Payload.{payload_of};
ghost use Rattle.calls.specs.Calls.{by_record, decoded, encoded, cleared_field, runtime_read};
ghost use Rattle.parts.specs.Part.{part_start, part_in};
ghost use Rattle.values.specs.Values.{value_read_by_code, value_written_by_code};
ghost use Rattle.dct.specs.Boundary.{start_answer, places_fetched};

use kinds::{ByteCount, Failure, Lent, Refusal};

// Reads the field that a record describes into the output.
pub fn dct_decode(
    record: &[u8],
    store: &[u8],
    payload: &[u8],
    byte_pos: usize,
    bit_pos: usize,
    output: &mut [u8],
    report: &mut [usize; 4],
) -> u32
    ensures { answer (result ∷ report.new) output.new ≡ decoded (by_record «record».now) store.now payload.now byte_pos bit_pos output.old }
{
    let reading = calls::decode(record, store, payload, byte_pos, bit_pos, output);
    kinds::report(reading, report)
}

// Writes the input as the field that a record describes.
pub fn dct_encode(
    record: &[u8],
    store: &[u8],
    input: &[u8],
    payload: &mut [u8],
    used: &mut usize,
    byte_pos: usize,
    bit_pos: usize,
    report: &mut [usize; 4],
) -> u32
    ensures { answer (result ∷ report.new) (payload_of payload.new used.new) ≡ encoded (by_record «record».now) store.now input.now (payload_of payload.old used.old) byte_pos bit_pos }
{
    let writing = calls::encode(record, store, input, payload, used, byte_pos, bit_pos);
    kinds::report(writing, report)
}

// Takes the field that a record describes back to zero.
pub fn dct_clear(
    record: &[u8],
    store: &[u8],
    payload: &mut [u8],
    used: usize,
    byte_pos: usize,
    bit_pos: usize,
    report: &mut [usize; 4],
) -> u32
    ensures { answer (result ∷ report.new) (payload_of payload.new used) ≡ cleared_field (by_record «record».now) store.now (payload_of payload.old used) byte_pos bit_pos }
{
    let writing = calls::clear(record, store, payload, used, byte_pos, bit_pos);
    kinds::report(writing, report)
}

// Where the part starts that is read at a byte position, and 0 where it is empty or there is none.
fn start_of(read: Result<Lent, Failure>, byte_pos: usize) -> usize
    ensures { result ≡ part_start (length (part_in read.entry)) byte_pos }
{
    match read {
        Ok(part) if !part.bytes.is_empty() => byte_pos,
        _ => 0,
    }
}

// Tells where so many bytes of the payload start, where they are in it.
pub fn dct_read(
    record: &[u8],
    store: &[u8],
    payload: &[u8],
    byte_pos: usize,
    byte_count: usize,
    place: &mut usize,
    report: &mut [usize; 4],
) -> u32
    ensures { answer (result ∷ report.new) place.new ≡ start_answer byte_pos (runtime_read (by_record «record».now) store.now payload.now byte_pos byte_count) }
{
    let read = calls::decode_with_runtime_byte_length(
        record,
        store,
        payload,
        byte_pos,
        ByteCount(byte_count),
    );
    *place = start_of(read, byte_pos);
    kinds::report(read, report)
}

// Tells where a table has the record with a number, and where its store.
#[tactic(auto, unfolding(crate::specs::Boundary::places_fetched))]
pub fn dct_fetch(table: &[u8], number: usize, places: &mut [usize; 3]) -> u32
    ensures { answer (numbered result) places.new ≡ places_fetched table.now number }
{
    match table::fetch(table, number) {
        Ok(entry) => {
            *places = [entry.record_at, entry.store_at, entry.store_len.bytes()];
            0
        }
        Err(refusal) => {
            *places = [0, 0, 0];
            refusal.number()
        }
    }
}

// Tells the class of a number.
pub fn dct_class(number: u32) -> u32
    ensures { result ≡ class_letter number }
{
    classes::class_of(number)
}

// The number of a refusal, and 0 of a pass.
fn number_of(check: Result<(), Refusal>) -> u32
    ensures { numbered result ≡ report_of_check check }
{
    match check {
        Ok(()) => 0,
        Err(refusal) => refusal.number(),
    }
}

// Reads the value that bytes say, of so many bits and in the encoding with a code.
pub fn dct_value_read(encoding: u32, width: usize, bytes: &[u8], value: &mut i64) -> u32
    ensures { answer (numbered result) value.new ≡ value_read_by_code encoding width bytes.now value.old }
{
    number_of(values::read_by_code(encoding, width, bytes, value))
}

// Writes a value to all of the bytes.
pub fn dct_value_write(encoding: u32, width: usize, value: i64, bytes: &mut [u8]) -> u32
    ensures { answer (numbered result) bytes.new ≡ value_written_by_code encoding width value bytes.old }
{
    number_of(values::write_by_code(encoding, width, value, bytes))
}
