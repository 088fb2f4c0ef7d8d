//! The rule that each slab of record 0 ends before record 1 begins.

ghost use Rattle.std.specs.Prelude.{◌≡◌, position};
ghost use Rattle.ncc_layout.specs.Rules.RecordWindow.{is_past_record_window};

use crate::extent::Extent;

/// The first record variable whose slab in record 0 ends past the end of that record.
pub fn record_window(extents: &[Extent], window_end: u128) -> Option<usize>
    ensures { result ≡ position (is_past_record_window window_end) extents.now }
{
    extents
        .iter()
        .position(|e| e.is_record && e.end() > window_end)
}
