// How many bytes a value may have.
ghost use Rattle.std.specs.Prelude.{◌≡◌};
ghost use Rattle.encodings.specs.Widths.{fits};
ghost use Rattle.values.specs.Values.{size_refusal};

use encodings::Encoding;
use kinds::{Refusal, SLICE_LIMIT};

// 43 and 58 of a size: whether the width is allowed and takes so many bytes.
pub fn validate_size(encoding: Encoding, width: usize, size: usize) -> Result<(), Refusal>
    ensures { result ≡ size_refusal (fits encoding width size) size }
{
    if SLICE_LIMIT < size {
        return Err(Refusal::SliceTooLong);
    }
    if !encoding.fits(width, size) {
        return Err(Refusal::WidthNotAllowed);
    }
    Ok(())
}
