// The stored table: its header, and a record fetched by its number.
#![tactic(auto)]

ghost use Rattle.std.specs.Prelude.{◌≡◌, ◌≤◌, length, ok_or};
ghost use Rattle.kinds.specs.Outcomes.{outcome_of, after, gives};
ghost use Rattle.field.specs.Refusals.{description_refusal};
ghost use Rattle.table.specs.Table.{header_size, record_place, entry, total_size, is_marked, header_of, record_fetched, fetched};

use coded::DiagCodedType;
use kinds::{ByteCount, Refusal, SLICE_LIMIT, STORE_LIMIT};
use record::{RECORD_SIZE, parse, read16};

// The bytes of a header.
const HEADER_SIZE: usize = 9;

// What the header says: how many records there are, and how many bytes the store has.
#[derive(Clone, Copy, Debug, PartialEq, Eq)]
pub struct Header {
    pub count: usize,
    pub store_len: ByteCount,
}

// A record of the table: the coded type that it says, where it starts, and where the store is.
#[derive(Clone, Copy, Debug, PartialEq, Eq)]
pub struct Entry {
    pub coded_type: DiagCodedType,
    pub record_at: usize,
    pub store_at: usize,
    pub store_len: ByteCount,
}

// Where the record with a number starts, and behind the last one the store.
fn record_place(number: usize) -> usize
    requires { number ≤ 65535 }
    ensures { result ≡ record_place number }
{
    HEADER_SIZE + RECORD_SIZE * number
}

// The mark `DCT`, and version 1.
fn is_marked(table: &[u8]) -> bool
    requires { header_size ≤ length table.now }
    ensures { result ≡ is_marked table.now }
{
    table.starts_with(b"DCT") && read16(table, 3) == 1
}

// 45, of the header and the size of the whole. Its bound and those below are asked again: only `fetch` calls these.
fn read_header(table: &[u8]) -> Result<Header, Refusal>
    requires { length table.now ≤ 65535 }
    ensures { result ≡ ok_or (header_of table.now) Refusal.MalformedTable }
{
    if table.len() < HEADER_SIZE || !is_marked(table) {
        return Err(Refusal::MalformedTable);
    }
    let count = usize::from(read16(table, 5));
    let store_len = ByteCount::of_number(u32::from(read16(table, 7)));
    let store_bytes = store_len.bytes();
    if 1024 < count || STORE_LIMIT < store_bytes {
        return Err(Refusal::MalformedTable);
    }
    let total = record_place(count) + store_bytes;
    if table.len() != total {
        return Err(Refusal::MalformedTable);
    }
    Ok(Header { count, store_len })
}

// The entry of a coded type: 42 of its part outside the store, then 12, 13, 10 and 11.
fn entry_of(header: Header, number: usize, coded_type: DiagCodedType) -> Result<Entry, Refusal>
    requires header_count_bound { header.count ≤ 65535 }
    requires number_bound { number ≤ 65535 }
    ensures { outcome_of result ≡ after (description_refusal coded_type header.store_len.0) (gives (entry header number coded_type)) }
{
    field::validate_description(coded_type, header.store_len)?;
    Ok(Entry {
        coded_type,
        record_at: record_place(number),
        store_at: record_place(header.count),
        store_len: header.store_len,
    })
}

// 42 of a record that is absent or malformed, and what else is refused of it.
fn fetch_record(table: &[u8], header: Header, number: usize) -> Result<Entry, Refusal>
    requires header_value { total_size header ≡ length table.now }
    requires table_len_bound { length table.now ≤ 65535 }
    ensures { outcome_of result ≡ record_fetched table.now header number }
{
    if header.count <= number {
        return Err(Refusal::MalformedRecord);
    }
    let record_at = record_place(number);
    match parse(&table[record_at..record_at + RECORD_SIZE]) {
        Some(coded_type) => entry_of(header, number, coded_type),
        None => Err(Refusal::MalformedRecord),
    }
}

// The record with a number, from 0. The header is checked, and that record alone.
#[tactic(auto, unfolding(crate::specs::Table::fetched))]
pub fn fetch(table: &[u8], number: usize) -> Result<Entry, Refusal>
    ensures { outcome_of result ≡ fetched table.now number }
{
    if SLICE_LIMIT < table.len() {
        return Err(Refusal::SliceTooLong);
    }
    let header = read_header(table)?;
    fetch_record(table, header, number)
}
