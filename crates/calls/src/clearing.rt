// Clear. Masks are parts of the store.
ghost use Rattle.std.specs.Prelude.{◌≡◌};
ghost use Rattle.kinds.specs.Answers.{report_of_writing};
ghost use Rattle.kinds.specs.Outcomes.{answer};
ghost use Rattle.payload.specs.Payload.{payload_of};
ghost use Rattle.calls.specs.Calls.{cleared_field};

use super::description::Description;
use described::clear_described;
use field::Sizes;
use kinds::{Failure, Position};
use payload::Payload;

// Takes a numeric field of a given length back to zero: its own bits, and no others. Slice and used length become a `Payload` once both
// are measured (43, 44).
#[tactic(auto, unfolding(crate::specs::Calls::cleared_field))]
pub fn clear<D: Description>(
    description: D,
    store: &[u8],
    uds_payload: &mut [u8],
    used: usize,
    byte_pos: usize,
    bit_pos: usize,
) -> Result<(), Failure>
    ensures { answer (report_of_writing result) (payload_of uds_payload.new used) ≡ cleared_field (D.says description) store.now (payload_of uds_payload.old used) byte_pos bit_pos }
{
    let coded_type = description.coded(Sizes::of(store, b"", uds_payload, used))?;
    let mut payload = Payload {
        bytes: uds_payload,
        used,
    };
    clear_described(
        coded_type,
        store,
        &mut payload,
        Position { byte_pos, bit_pos },
    )
}
