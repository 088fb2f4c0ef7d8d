//! The rule that no variable begins before the header ends.

ghost use Rattle.std.specs.Prelude.{◌≡◌, position};
ghost use Rattle.ncc_layout.specs.Rules.InHeader.{is_in_header};

use crate::extent::Extent;

/// The first variable that begins before the header ends.
pub fn in_header(extents: &[Extent], header: u64) -> Option<usize>
    ensures { result ≡ position (is_in_header header) extents.now }
{
    extents.iter().position(|e| e.begin < header)
}
