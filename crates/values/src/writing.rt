// A value written to bytes.
ghost use Rattle.std.specs.Prelude.{◌≡◌};
ghost use Rattle.kinds.specs.Answers.{report_of_check};
ghost use Rattle.kinds.specs.Outcomes.{answer};
ghost use Rattle.values.specs.Values.{value_written, value_written_by_code};

use super::codes::known;
use super::sizes::validate_size;
use encodings::{Encoding, Form};
use kinds::Refusal;
use numerals::{Signed, put};

// Writes a value in an encoding to all of the bytes.
#[tactic(auto, unfolding(crate::specs::Values::value_written))]
pub fn write(encoding: Encoding, width: usize, value: i64, bytes: &mut [u8]) -> Result<(), Refusal>
    ensures { answer (report_of_check result) bytes.new ≡ value_written encoding width value bytes.old }
{
    validate_size(encoding, width, bytes.len())?;
    let form = Form { encoding, width };
    let number = Signed::from(value);
    if !form.in_range(number) {
        return Err(Refusal::ValueOutOfRange);
    }
    put(form.pattern_of(number), bytes);
    Ok(())
}

// The same, of an encoding told by its code, as C tells it.
#[tactic(auto, unfolding(crate::specs::Values::value_written_by_code, crate::specs::Values::value_written))]
pub fn write_by_code(code: u32, width: usize, value: i64, bytes: &mut [u8]) -> Result<(), Refusal>
    ensures { answer (report_of_check result) bytes.new ≡ value_written_by_code code width value bytes.old }
{
    write(known(code, bytes.len())?, width, value, bytes)
}
