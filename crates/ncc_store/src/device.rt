//! A failure of a store after which nothing is written.

ghost use Rattle.std.specs.Prelude.{◌≡◌, ◌≤◌, false};
ghost use Rattle.ncc_values.specs.Failures.{last_count, Rose};

use ncc_values::{Device, device_failure};

/// Counts a failure after which nothing is written or synced.
pub(crate) fn end(ready: &mut bool, failures: &mut u64) -> Device
    ensures ended { ready.new ≡ false }
    ensures rose { Rose failures.old failures.new }
    ensures end { failures.new ≤ last_count }
{
    *ready = false;
    device_failure(failures)
}
