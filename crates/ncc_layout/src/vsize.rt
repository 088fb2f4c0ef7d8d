//! The vsize of a variable.

ghost use Rattle.std.specs.Prelude.{◌≡◌};
ghost use Rattle.ncc_layout.specs.Standard.{short_word, vsize_word};

use ncc_values::Version;

/// The greatest size that a word of four bytes tells.
pub const MOST_VSIZE: u64 = (1 << 32) - 4;

/// The word of four bytes for each size past that.
const PAST_VSIZE: u64 = (1 << 32) - 1;

/// The word of four bytes for this padded size.
fn short_word(rounded: u64) -> u64
    ensures { result ≡ short_word rounded }
{
    if rounded > MOST_VSIZE {
        PAST_VSIZE
    } else {
        rounded
    }
}

/// The vsize of a variable of this padded size.
pub fn vsize_word(version: Version, rounded: u64) -> u64
    ensures { result ≡ vsize_word version rounded }
{
    match version {
        Version::V1 | Version::V2 => short_word(rounded),
        Version::V5 => rounded,
    }
}
