//! The rule that each fixed variable ends before the records begin.

ghost use Rattle.std.specs.Prelude.{◌≡◌, position};
ghost use Rattle.ncc_layout.specs.Rules.FixedAfterRecords.{is_fixed_after_records};

use crate::extent::Extent;

/// The first fixed variable that ends past the begin of the records.
pub fn fixed_after_records(extents: &[Extent], begin: u128) -> Option<usize>
    ensures { result ≡ position (is_fixed_after_records begin) extents.now }
{
    extents.iter().position(|e| !e.is_record && e.end() > begin)
}
