// A stored answer, and what becomes of it: its call, made again, is compared with it in full.
use super::head::{Call, Head, RECORD_LEN, UnknownCall};
use super::part::Part;

// What no stored number is, so that one left unwritten shows.
const UNWRITTEN: usize = 1 << 31;

// What became of a stored answer.
#[derive(Clone, Copy, Debug, PartialEq, Eq)]
pub enum Verdict {
    Same,
    Other,
    // Nothing says where the next would start: the list ends there.
    Cut,
}

// A record and four parts of at most 255 bytes.
pub const BODY_MOST: usize = 1036;

#[derive(Clone, Copy, Debug, PartialEq, Eq)]
pub struct Stored<'a> {
    head: &'a Head,
    record: &'a [u8],
    store: &'a [u8],
    input: &'a [u8],
    payload: &'a [u8],
    after: &'a [u8],
}

impl<'a> Stored<'a> {
    // The record and the parts stand one after the other.
    pub fn of(head: &'a Head, body: &'a [u8; BODY_MOST]) -> Self {
        let (record, rest) = body.split_at(RECORD_LEN);
        let (store, rest) = rest.split_at(usize::from(head.store_len));
        let (input, rest) = rest.split_at(usize::from(head.input_len));
        let (payload, rest) = rest.split_at(usize::from(head.payload_len));
        let (after, _) = rest.split_at(usize::from(head.after_len));
        Stored {
            head,
            record,
            store,
            input,
            payload,
            after,
        }
    }

    // Whether these are the stored number and report.
    fn gives(&self, number: u32, report: [usize; 4]) -> bool {
        number == self.head.number && report == self.head.report
    }

    // Whether the bytes are those stored, and behind them still what they were before the call.
    fn leaves(&self, left: &[u8], before: &[u8]) -> bool {
        let behind = self.after.len();
        left.starts_with(self.after) && left.get(behind..) == before.get(behind..)
    }

    fn decodes(&self, room: u8) -> bool {
        let blank = Part::blank(room);
        let mut output = blank;
        let mut report = [UNWRITTEN; 4];
        let number = dct::dct_decode(
            self.record,
            self.store,
            self.payload,
            self.head.byte_pos,
            self.head.bit_pos,
            output.bytes_mut(),
            &mut report,
        );
        self.gives(number, report) && self.leaves(output.bytes(), blank.bytes())
    }

    fn encodes(&self, used: usize, used_after: usize) -> bool {
        let mut payload = Part::of(self.payload, self.head.payload_len);
        let mut used = used;
        let mut report = [UNWRITTEN; 4];
        let number = dct::dct_encode(
            self.record,
            self.store,
            self.input,
            payload.bytes_mut(),
            &mut used,
            self.head.byte_pos,
            self.head.bit_pos,
            &mut report,
        );
        self.gives(number, report)
            && used == used_after
            && self.leaves(payload.bytes(), self.payload)
    }

    fn clears(&self, used: usize) -> bool {
        let mut payload = Part::of(self.payload, self.head.payload_len);
        let mut report = [UNWRITTEN; 4];
        let number = dct::dct_clear(
            self.record,
            self.store,
            payload.bytes_mut(),
            used,
            self.head.byte_pos,
            self.head.bit_pos,
            &mut report,
        );
        self.gives(number, report) && self.leaves(payload.bytes(), self.payload)
    }

    fn reads(&self, byte_count: usize, place: usize) -> bool {
        let mut start = UNWRITTEN;
        let mut report = [UNWRITTEN; 4];
        let number = dct::dct_read(
            self.record,
            self.store,
            self.payload,
            self.head.byte_pos,
            byte_count,
            &mut start,
            &mut report,
        );
        let [_, count, _, _] = report;
        let rest = self.payload.get(start..);
        self.gives(number, report)
            && start == place
            && rest.and_then(|rest| rest.get(..count)) == Some(self.after)
    }

    // Makes the call again. A code that no call has is never stored.
    pub fn verdict(&self) -> Verdict {
        let same = match self.head.call {
            Ok(Call::Decode { room }) => self.decodes(room),
            Ok(Call::Encode { used, used_after }) => self.encodes(used, used_after),
            Ok(Call::Clear { used }) => self.clears(used),
            Ok(Call::Read { byte_count, place }) => self.reads(byte_count, place),
            Err(UnknownCall) => false,
        };
        if same { Verdict::Same } else { Verdict::Other }
    }
}
