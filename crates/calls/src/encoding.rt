// Encode. Masks are parts of the store.
ghost use Rattle.std.specs.Prelude.{◌≡◌};
ghost use Rattle.kinds.specs.Answers.{report_of_writing};
ghost use Rattle.kinds.specs.Outcomes.{answer};
ghost use Rattle.payload.specs.Payload.{payload_of};
ghost use Rattle.calls.specs.Calls.{encoded};

use super::description::Description;
use described::encode_described;
use field::Sizes;
use kinds::{Failure, Lent, Position};
use payload::Payload;

// Writes the input as a field at a byte position and a bit position of the payload, of which `used` bytes are used. The
// payload grows in its slice where the field ends past them. Slice and used length become a `Payload` once both are measured (43, 44).
#[tactic(auto, unfolding(crate::specs::Calls::encoded))]
pub fn encode<D: Description>(
    description: D,
    store: &[u8],
    input_data: &[u8],
    uds_payload: &mut [u8],
    used: &mut usize,
    byte_pos: usize,
    bit_pos: usize,
) -> Result<(), Failure>
    ensures { answer (report_of_writing result) (payload_of uds_payload.new used.new) ≡ encoded (D.says description) store.now input_data.now (payload_of uds_payload.old used.old) byte_pos bit_pos }
{
    let coded_type = description.coded(Sizes::of(store, input_data, uds_payload, *used))?;
    let mut payload = Payload {
        bytes: uds_payload,
        used: *used,
    };
    let written = encode_described(
        coded_type,
        store,
        Lent { bytes: input_data },
        &mut payload,
        Position { byte_pos, bit_pos },
    );
    *used = payload.used;
    written
}
