//! Where the records begin, where their first slabs end, and how many records there are and may be.

ghost use Rattle.std.specs.Prelude.{◌≡◌, ◌<◌, map};
ghost use Rattle.std.specs.List.{AllByRecursion};
ghost use Rattle.ncc_layout.specs.Extents.{records_of, begin_sooner, number_of_records};
ghost use Rattle.ncc_layout.specs.Standard.{next_count};
ghost use Rattle.ncc_layout.specs.Bounds.{HasBytes, first_begin, last_end, end_later, records_by};

use crate::extent::Extent;
use crate::placed_var::PlacedVar;
use ncc_schema::{Count, streaming_mark};
use ncc_values::Version;

fn sooner(first: Option<u64>, begin: u64) -> u64
    ensures { result ≡ begin_sooner first begin }
{
    match first {
        Some(least) => least.min(begin),
        None => begin,
    }
}

/// The least begin of a record variable.
pub fn first_begin(extents: &[Extent]) -> Option<u64>
    ensures { result ≡ first_begin (records_of extents.now) }
{
    let mut first = None;
    for extent in extents {
        if extent.is_record {
            first = Some(sooner(first, extent.begin));
        }
    }
    first
}

/// The least begin of a record variable.
pub fn first_begin_of(vars: &[PlacedVar]) -> Option<u64>
    ensures { result ≡ first_begin (records_of (map (λ x. x.extent) vars.now)) }
{
    let mut first = None;
    for var in vars {
        if var.extent.is_record {
            first = Some(sooner(first, var.extent.begin));
        }
    }
    first
}

fn later(last: Option<u128>, end: u128) -> u128
    ensures { result ≡ end_later last end }
{
    match last {
        Some(greatest) => greatest.max(end),
        None => end,
    }
}

/// Where the last slab of record 0 ends.
fn last_end(extents: &[Extent]) -> Option<u128>
    ensures { result ≡ last_end (records_of extents.now) }
{
    let mut last = None;
    for extent in extents {
        if extent.is_record {
            last = Some(later(last, extent.end()));
        }
    }
    last
}

/// The records whose last slab ends by this length, where that of record 0 ends at `end`.
fn whole_records(end: u128, record_size: u64, length: u64) -> u64
    requires bytes { 0 < end }
    requires stride { 0 < record_size }
    ensures { result ≡ records_by end record_size length }
{
    if (length as u128) < end {
        return 0;
    }
    1 + (length - end as u64) / record_size
}

/// The number of records in a file of this length.
pub fn record_count(extents: &[Extent], count: Count, record_size: u64, length: u64) -> u64
    requires bytes { AllByRecursion HasBytes extents.now }
    requires stride { AllByRecursion (λ e. 0 < record_size) (records_of extents.now) }
    ensures { result ≡ number_of_records record_size length extents.now count }
{
    let last = match count {
        Count::Known(n) => return n,
        Count::Streaming => last_end(extents),
    };
    match last {
        Some(end) => whole_records(end, record_size, length),
        None => 0,
    }
}

/// One more record, where that isn't the streaming mark.
pub fn next_count(version: Version, n: u64) -> Option<u64>
    ensures { result ≡ next_count version n }
{
    if n >= streaming_mark(version) - 1 {
        return None;
    }
    Some(n + 1)
}
