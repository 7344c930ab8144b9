// An encoding told by its code.
ghost use Rattle.std.specs.Prelude.{◌≡◌, Err, ltb, ok_or, if◌then◌else◌};
ghost use Rattle.kinds.specs.Slices.{slice_limit};
ghost use Rattle.encodings.specs.Widths.{encoding_of};

use encodings::Encoding;
use kinds::{Refusal, SLICE_LIMIT};

// The encoding with a code, for so many bytes: 43, and then 58 where no encoding has it.
pub fn known(code: u32, size: usize) -> Result<Encoding, Refusal>
    ensures { result ≡ (if ltb slice_limit size then Err Refusal.SliceTooLong else ok_or (encoding_of code) Refusal.WidthNotAllowed) }
{
    if SLICE_LIMIT < size {
        return Err(Refusal::SliceTooLong);
    }
    Encoding::try_from(code).map_err(|_| Refusal::WidthNotAllowed)
}
