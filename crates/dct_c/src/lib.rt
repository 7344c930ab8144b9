// The functions that C calls, each under the name that it has in `dct`. Every byte pattern and every number gets an answer: nothing is required.
// They stand twice, since a crate is a library, which others call, or an archive.
#![tactic(auto)]

ghost use Rattle.std.specs.Prelude.{◌≡◌, ◌∷◌};
ghost use Rattle.kinds.specs.Answers.{numbered};
ghost use Rattle.classes.specs.Classes.{class_letter};
ghost use Rattle.kinds.specs.Outcomes.{answer};
ghost use Rattle.payload.specs.Payload.{payload_of};
ghost use Rattle.calls.specs.Calls.{by_record, decoded, encoded, cleared_field, runtime_read};
ghost use Rattle.values.specs.Values.{value_read_by_code, value_written_by_code};
ghost use Rattle.dct.specs.Boundary.{start_answer, places_fetched};

// Reads the field that a record describes into the output.
#[unsafe(no_mangle)]
pub extern "C" fn dct_decode(
    record: &[u8],
    store: &[u8],
    payload: &[u8],
    byte_pos: usize,
    bit_pos: usize,
    output: &mut [u8],
    report: &mut [usize; 4],
) -> u32
    ensures { answer (result ∷ report.new) output.new ≡ decoded (by_record «record».now) store.now payload.now byte_pos bit_pos output.old }
{
    dct::dct_decode(record, store, payload, byte_pos, bit_pos, output, report)
}

// Writes the input as the field that a record describes.
#[unsafe(no_mangle)]
pub extern "C" fn dct_encode(
    record: &[u8],
    store: &[u8],
    input: &[u8],
    payload: &mut [u8],
    used: &mut usize,
    byte_pos: usize,
    bit_pos: usize,
    report: &mut [usize; 4],
) -> u32
    ensures { answer (result ∷ report.new) (payload_of payload.new used.new) ≡ encoded (by_record «record».now) store.now input.now (payload_of payload.old used.old) byte_pos bit_pos }
{
    dct::dct_encode(
        record, store, input, payload, used, byte_pos, bit_pos, report,
    )
}

// Takes the field that a record describes back to zero.
#[unsafe(no_mangle)]
pub extern "C" fn dct_clear(
    record: &[u8],
    store: &[u8],
    payload: &mut [u8],
    used: usize,
    byte_pos: usize,
    bit_pos: usize,
    report: &mut [usize; 4],
) -> u32
    ensures { answer (result ∷ report.new) (payload_of payload.new used) ≡ cleared_field (by_record «record».now) store.now (payload_of payload.old used) byte_pos bit_pos }
{
    dct::dct_clear(record, store, payload, used, byte_pos, bit_pos, report)
}

// Tells where so many bytes of the payload start, where they are in it.
#[unsafe(no_mangle)]
pub extern "C" fn dct_read(
    record: &[u8],
    store: &[u8],
    payload: &[u8],
    byte_pos: usize,
    byte_count: usize,
    place: &mut usize,
    report: &mut [usize; 4],
) -> u32
    ensures { answer (result ∷ report.new) place.new ≡ start_answer byte_pos (runtime_read (by_record «record».now) store.now payload.now byte_pos byte_count) }
{
    dct::dct_read(record, store, payload, byte_pos, byte_count, place, report)
}

// Tells where a table has the record with a number, and where its store.
#[unsafe(no_mangle)]
pub extern "C" fn dct_fetch(table: &[u8], number: usize, places: &mut [usize; 3]) -> u32
    ensures { answer (numbered result) places.new ≡ places_fetched table.now number }
{
    dct::dct_fetch(table, number, places)
}

// Tells the class of a number.
#[unsafe(no_mangle)]
pub extern "C" fn dct_class(number: u32) -> u32
    ensures { result ≡ class_letter number }
{
    dct::dct_class(number)
}

// Reads the value that bytes say, of so many bits and in the encoding with a code.
#[unsafe(no_mangle)]
pub extern "C" fn dct_value_read(encoding: u32, width: usize, bytes: &[u8], value: &mut i64) -> u32
    ensures { answer (numbered result) value.new ≡ value_read_by_code encoding width bytes.now value.old }
{
    dct::dct_value_read(encoding, width, bytes, value)
}

// Writes a value to all of the bytes.
#[unsafe(no_mangle)]
pub extern "C" fn dct_value_write(encoding: u32, width: usize, value: i64, bytes: &mut [u8]) -> u32
    ensures { answer (numbered result) bytes.new ≡ value_written_by_code encoding width value bytes.old }
{
    dct::dct_value_write(encoding, width, value, bytes)
}
