// What a call writes to: as many bytes as a byte of the head says.

const MOST: usize = 255;

// A fixed space and how much of it is used, and no vector: nothing is allocated.
#[derive(Clone, Copy, Debug, PartialEq, Eq)]
pub struct Part {
    space: [u8; MOST],
    len: u8,
}

impl Part {
    // So many bytes EE, as an output is before a decode.
    pub fn blank(len: u8) -> Self {
        Part {
            space: [0xEE; MOST],
            len,
        }
    }

    // So many bytes, the same as those told.
    pub fn of(bytes: &[u8], len: u8) -> Self {
        let mut part = Part::blank(len);
        for (byte, &told) in part.bytes_mut().iter_mut().zip(bytes) {
            *byte = told;
        }
        part
    }

    pub fn bytes(&self) -> &[u8] {
        &self.space[..usize::from(self.len)]
    }

    pub fn bytes_mut(&mut self) -> &mut [u8] {
        &mut self.space[..usize::from(self.len)]
    }
}
