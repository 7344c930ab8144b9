// Decode. Masks are parts of the store.
ghost use Rattle.std.specs.Prelude.{◌≡◌};
ghost use Rattle.kinds.specs.Answers.{report_of_reading};
ghost use Rattle.kinds.specs.Outcomes.{answer};
ghost use Rattle.calls.specs.Calls.{decoded};

use super::description::Description;
use described::decode_described;
use field::Sizes;
use kinds::{Counts, Failure, Lent, Position};

// Reads a field at a byte position and a bit position into the output. The parameters are those of the Rust: they become a `Field` and a
// `Position` once what was lent is measured.
#[tactic(auto, unfolding(crate::specs::Calls::decoded, unpack::specs::Found::read_answer))]
pub fn decode<D: Description>(
    description: D,
    store: &[u8],
    uds_payload: &[u8],
    byte_pos: usize,
    bit_pos: usize,
    output: &mut [u8],
) -> Result<Counts, Failure>
    ensures { answer (report_of_reading result) output.new ≡ decoded (D.says description) store.now uds_payload.now byte_pos bit_pos output.old }
{
    let coded_type = description.coded(Sizes::of(store, uds_payload, output, 0))?;
    decode_described(
        coded_type,
        store,
        Lent { bytes: uds_payload },
        Position { byte_pos, bit_pos },
        output,
    )
}
