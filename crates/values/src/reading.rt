// A value read from bytes.
ghost use Rattle.std.specs.Prelude.{◌≡◌};
ghost use Rattle.kinds.specs.Answers.{report_of_check};
ghost use Rattle.kinds.specs.Outcomes.{answer};
ghost use Rattle.values.specs.Values.{value_read, value_read_by_code};

use super::codes::known;
use super::sizes::validate_size;
use encodings::{Encoding, Form};
use kinds::Refusal;
use numerals::lowest;

// Reads the value that bytes say in an encoding. The value is lent, since the clause says of a refusal that the old one stays.
#[tactic(auto, using(crate::proofs::Cases::bits_lt, crate::proofs::Cases::said_fits), unfolding(crate::specs::Values::value_read))]
pub fn read(encoding: Encoding, width: usize, bytes: &[u8], value: &mut i64) -> Result<(), Refusal>
    ensures { answer (report_of_check result) value.new ≡ value_read encoding width bytes.now value.old }
{
    validate_size(encoding, width, bytes.len())?;
    let form = Form { encoding, width };
    *value = form.bits_say(lowest(bytes, width))?.value();
    Ok(())
}

// The same, of an encoding told by its code, as C tells it.
#[tactic(auto, unfolding(crate::specs::Values::value_read_by_code, crate::specs::Values::value_read))]
pub fn read_by_code(code: u32, width: usize, bytes: &[u8], value: &mut i64) -> Result<(), Refusal>
    ensures { answer (report_of_check result) value.new ≡ value_read_by_code code width bytes.now value.old }
{
    read(known(code, bytes.len())?, width, bytes, value)
}
