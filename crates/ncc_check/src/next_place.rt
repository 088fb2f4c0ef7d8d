//! Where the next record goes.

ghost use Rattle.std.specs.Prelude.{◌≡◌, ◌<◌, ◌^◌, false, length, Err, MatchOption, MatchResult};
ghost use Rattle.ncc_values.specs.Version.{count_width_of};
ghost use Rattle.ncc_check.specs.Appending.{IsAppendable, IsFull, IsNext, TakesRecord, count_field};

use crate::append_error::AppendError;
use ncc_header::{Count, Schema};
use ncc_layout::{Placed, next_count};
use ncc_values::{External, Version};

/// The longest file has one byte less.
const LENGTH_LIMIT: u64 = 1 << 63;

/// The number of records with one more, the offset of that one, and the length of the file with it.
#[derive(Clone, Copy)]
pub struct NextRecord {
    pub count: u64,
    pub place: u64,
    pub length: u64,
}

/// Where the next record goes; nothing where there is no room for its number, or for its bytes.
pub fn next_record(version: Version, placed: &Placed) -> Option<NextRecord>
    ensures { MatchOption result (IsFull version placed.now) (λ n. IsNext version placed.now n.count n.place n.length) }
{
    let records = placed.records();
    let count = next_count(version, records)?;
    let place = placed.record_place(records)?;
    let length = placed.record_place(count)?.max(placed.file_length());
    if length >= LENGTH_LIMIT {
        return None;
    }
    Some(NextRecord {
        count,
        place,
        length,
    })
}

/// Where one more record goes; or the first reason against it, of NoRecordVariable, NotPacked, Streaming, CountFull in
/// this order. It allocates nothing.
pub fn place_of_next(schema: &Schema, placed: &Placed) -> Result<NextRecord, AppendError>
    ensures { MatchResult result
        (λ n. TakesRecord schema.now placed.now × IsNext schema.now.version placed.now n.count n.place n.length)
        (λ e. IsAppendable false schema.now placed.now (Err e)) }
{
    if placed.records_begin().is_none() {
        return Err(AppendError::NoRecordVariable);
    }
    if !placed.is_packed() {
        return Err(AppendError::NotPacked);
    }
    if let Count::Streaming = schema.count {
        return Err(AppendError::Streaming);
    }
    match next_record(schema.version, placed) {
        Some(next) => Ok(next),
        None => Err(AppendError::CountFull),
    }
}

/// Puts a number of records into a field of the version's width.
pub fn put_count(version: Version, count: u64, out: &mut [u8])
    requires width { length out.old ≡ count_width_of version }
    requires small { count < 256 ^ count_width_of version }
    ensures { out.new ≡ count_field version count }
{
    match version {
        Version::V1 | Version::V2 => (count as u32).put(out),
        Version::V5 => count.put(out),
    }
}
