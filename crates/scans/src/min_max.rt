// Data bytes between limits, up to a terminator or the payload's end.
ghost use Rattle.std.specs.Prelude.{◌≡◌, ◌+◌, ◌-◌, ◌≤◌, max, length};
ghost use Rattle.kinds.specs.CodePlaces.{outcome_of_search};
ghost use Rattle.scans.specs.MinMax.{end_by_max, has_at, stops_at, scanned};
ghost use Rattle.scans.specs.CodePlace.{at_least, min_max_place};

use coded::{MinMaxLengthType, Termination};
use kinds::{ByteCount, Failure, Lent, PosInfo, Refusal};

// Data bytes of which the end is looked for: whether they are text of two bytes to a character, where they start, and how many
// there are at least.
#[derive(Clone, Copy, Debug, PartialEq, Eq)]
struct Scan<'a> {
    is_unicode: bool,
    uds_payload: &'a [u8],
    byte_pos: usize,
    min_length: ByteCount,
}

// Where the data bytes end at the latest.
fn max_end(max_length: Option<u32>, byte_pos: usize, payload_len: usize) -> usize
    ensures value { result ≡ end_by_max max_length byte_pos payload_len }
    ensures upper_bound { result ≤ payload_len }
{
    match max_length {
        Some(most) => {
            kinds::saturating_add(byte_pos, ByteCount::of_number(most).bytes()).min(payload_len)
        }
        None => payload_len,
    }
}

fn has_at(terminator: u8, uds_payload: &[u8], pos: usize) -> bool
    ensures { result ≡ has_at terminator uds_payload.now pos }
{
    uds_payload.get(pos) == Some(&terminator)
}

impl<'a> Scan<'a> {
    // Whether data bytes end here. Each byte of a terminator must lie in the payload.
    fn stops_at(self, terminator: u8, end_pos: usize) -> bool
        ensures { result ≡ stops_at self.entry.is_unicode terminator self.entry.uds_payload.now self.entry.byte_pos self.entry.min_length.0 end_pos }
    {
        end_pos.saturating_sub(self.byte_pos) >= self.min_length.bytes()
            && has_at(terminator, self.uds_payload, end_pos)
            && (!self.is_unicode || has_at(terminator, self.uds_payload, end_pos + 1))
    }

    // Text of two bytes to a character goes in steps of two. A `while`, since the place after the last step is an answer too.
    #[tactic(auto, using(crate::proofs::Scans::from_start, crate::proofs::Scans::from_done, crate::proofs::Scans::from_stops, crate::proofs::Scans::from_goes_on))]
    fn scan_for(self, terminator: u8, max_end: usize) -> usize
        requires { max_end ≤ 65535 }
        ensures value { result ≡ scanned self.entry.is_unicode terminator self.entry.uds_payload.now self.entry.byte_pos self.entry.min_length.0 max_end }
        ensures upper_bound { result ≤ max self.entry.byte_pos (max_end + 1) }
    {
        let step = if self.is_unicode { 2 } else { 1 };
        let mut end_pos = self.byte_pos;
        while end_pos < max_end && !self.stops_at(terminator, end_pos) {
            end_pos += step;
        }
        end_pos
    }

    // The data bytes up to their end, unless they are fewer than the least.
    fn found_up_to(self, end_pos: usize) -> Result<PosInfo, Failure>
        requires { end_pos - self.byte_pos ≤ 65536 }
        ensures { outcome_of_search result ≡ at_least self.entry.min_length.0 end_pos self.entry.byte_pos (length self.entry.uds_payload.now) }
    {
        let len = ByteCount(end_pos.saturating_sub(self.byte_pos));
        if len.bytes() < self.min_length.bytes() {
            return Err(Failure::NotEnoughData {
                expected: kinds::saturating_add(self.byte_pos, self.min_length.bytes()),
                actual: self.uds_payload.len(),
            });
        }
        Ok(PosInfo {
            bit_len: len.bit_length(),
            start_pos: self.byte_pos,
        })
    }
}

pub fn pos_info_min_max_len(
    is_unicode: bool,
    uds_payload: Lent,
    byte_pos: usize,
    limits: MinMaxLengthType,
) -> Result<PosInfo, Failure>
    ensures { outcome_of_search result ≡ min_max_place limits is_unicode uds_payload.entry.bytes.now byte_pos }
{
    let payload_len = uds_payload.bytes.len();
    let max_end = max_end(limits.max_length, byte_pos, payload_len);
    let scan = Scan {
        is_unicode,
        uds_payload: uds_payload.bytes,
        byte_pos,
        min_length: ByteCount::of_number(limits.min_length),
    };
    let end_pos = match limits.termination {
        Termination::EndOfPdu => max_end,
        Termination::Zero => {
            let end_pos = scan.scan_for(0x00, max_end);
            if payload_len < end_pos {
                return Err(Failure::Refused(Refusal::ScanPastPayload));
            }
            end_pos
        }
        Termination::HexFF => scan.scan_for(0xFF, max_end),
    };
    scan.found_up_to(end_pos)
}
