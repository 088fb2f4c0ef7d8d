//! The rule that each fixed variable, and each slab of the last record, ends in the file.

ghost use Rattle.std.specs.Prelude.{◌≡◌, ◌+◌, ltb, position};
ghost use Rattle.ncc_layout.specs.Extents.{end};
ghost use Rattle.ncc_layout.specs.Rules.Truncated.{is_truncated, last_record};

use crate::extent::Extent;

/// Does it end past this length, `further` bytes on?
fn ends_past(extent: &Extent, further: u128, length: u64) -> bool
    ensures { result ≡ ltb length (end extent.now + further) }
{
    let length = length as u128;
    extent.end() > length || length - extent.end() < further
}

/// Where the last of so many records begins, counted from record 0.
fn last_record(record_size: u64, records: u64) -> Option<u128>
    ensures { result ≡ last_record record_size records }
{
    if records == 0 {
        return None;
    }
    Some((records - 1) as u128 * record_size as u128)
}

/// Does the extent, or the same slab of the last record, end past this length?
fn is_truncated(extent: &Extent, last: Option<u128>, length: u64) -> bool
    ensures { result ≡ is_truncated length last extent.now }
{
    if !extent.is_record {
        return ends_past(extent, 0, length);
    }
    match last {
        Some(further) => ends_past(extent, further, length),
        None => false,
    }
}

/// The first variable with a byte past the end of the file.
pub fn truncated(extents: &[Extent], length: u64, record_size: u64, records: u64) -> Option<usize>
    ensures { result ≡ position (is_truncated length (last_record record_size records)) extents.now }
{
    let last = last_record(record_size, records);
    extents.iter().position(|e| is_truncated(e, last, length))
}
