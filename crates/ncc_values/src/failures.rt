//! What a call of a device that failed answers, and how it is counted.

ghost use Rattle.std.specs.Prelude.{◌+◌, ◌≤◌};
ghost use Rattle.ncc_values.specs.Failures.{last_count, Rose};

use thiserror::Error;

/// A call of a device that failed: of a store, a source or a sink.
#[derive(Clone, Copy, Debug, PartialEq, Eq, Error)]
#[error("Device")]
pub struct Device;

/// Counts a failure. The count stays at 2^64 - 1.
pub fn count_failure(failures: &mut u64)
    ensures rose { Rose failures.old failures.new }
    ensures once { failures.new ≤ failures.old + 1 }
    ensures end { failures.new ≤ last_count }
{
    *failures = failures.saturating_add(1);
}

/// Counts a failure, and gives its error.
pub fn device_failure(failures: &mut u64) -> Device
    ensures rose { Rose failures.old failures.new }
    ensures once { failures.new ≤ failures.old + 1 }
    ensures end { failures.new ≤ last_count }
{
    count_failure(failures);
    Device
}
