// What the calls give, beside what they should.
use super::fields::Field;

// What a call should answer, but for the bytes. A refusal is the number that RULES gives it, as C sees it, and no name of the library's.
#[derive(Clone, Copy, Debug, PartialEq, Eq)]
pub enum Want {
    Read { bits: usize, bytes: usize },
    Written,
    Short { expected: usize, actual: usize },
    Refused(u32),
}

impl Want {
    // The number, and the report: bit count, byte count, expected and actual.
    fn numbers(self) -> (u32, [usize; 4]) {
        match self {
            Want::Read { bits, bytes } => (0, [bits, bytes, 0, 0]),
            Want::Written => (0, [0; 4]),
            Want::Short { expected, actual } => (30, [0, 0, expected, actual]),
            Want::Refused(number) => (number, [0; 4]),
        }
    }
}

// What a report holds before a call, so that one left unwritten shows.
const UNWRITTEN: [usize; 4] = [1; 4];

impl Field<'_> {
    // Whether a decode into four bytes EE answers so and leaves these bytes.
    pub fn reads(&self, payload: &[u8], want: Want, after: &[u8; 4]) -> bool {
        let mut output = [0xEE; 4];
        let mut report = UNWRITTEN;
        let number = dct::dct_decode(
            &self.record(),
            self.store(),
            payload,
            self.byte_pos,
            self.bit_pos,
            &mut output,
            &mut report,
        );
        (number, report) == want.numbers() && output == *after
    }

    // Whether a runtime read of so many bytes answers so and tells of this part of the payload.
    pub fn lends(&self, payload: &[u8], byte_count: usize, want: Want, part: &[u8]) -> bool {
        let mut place = 1;
        let mut report = UNWRITTEN;
        let number = dct::dct_read(
            &self.record(),
            self.store(),
            payload,
            self.byte_pos,
            byte_count,
            &mut place,
            &mut report,
        );
        let [_, count, _, _] = report;
        let lent = payload.get(place..).and_then(|rest| rest.get(..count));
        (number, report) == want.numbers() && lent == Some(part)
    }

    // The used length after an encode, if it answers so. It stands beside the payload, as C has it.
    fn encoded(&self, input: &[u8], payload: &mut [u8], used: usize, want: Want) -> Option<usize> {
        let mut end = used;
        let mut report = UNWRITTEN;
        let number = dct::dct_encode(
            &self.record(),
            self.store(),
            input,
            payload,
            &mut end,
            self.byte_pos,
            self.bit_pos,
            &mut report,
        );
        ((number, report) == want.numbers()).then_some(end)
    }

    // Whether an encode into a payload that is used whole answers so and leaves these bytes.
    pub fn writes<const N: usize>(
        &self,
        input: &[u8],
        before: &[u8; N],
        want: Want,
        after: &[u8; N],
    ) -> bool {
        let mut payload = *before;
        self.encoded(input, &mut payload, N, want) == Some(N) && payload == *after
    }

    // Whether an encode into bytes EE of which none is used answers so, and leaves these bytes and so many of them used.
    pub fn appends<const N: usize>(
        &self,
        input: &[u8],
        want: Want,
        used: usize,
        after: &[u8; N],
    ) -> bool {
        let mut payload = [0xEE; N];
        self.encoded(input, &mut payload, 0, want) == Some(used) && payload == *after
    }

    // Whether a clear in a payload that is used whole answers so and leaves these bytes.
    pub fn clears<const N: usize>(&self, before: &[u8; N], want: Want, after: &[u8; N]) -> bool {
        let mut payload = *before;
        let mut report = UNWRITTEN;
        let number = dct::dct_clear(
            &self.record(),
            self.store(),
            &mut payload,
            N,
            self.byte_pos,
            self.bit_pos,
            &mut report,
        );
        (number, report) == want.numbers() && payload == *after
    }
}
