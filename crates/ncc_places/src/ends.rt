//! Where the records of a file lie, and where all that its header speaks of ends.

ghost use Rattle.std.specs.Prelude.{◌≡◌, ◌<◌, ◌^◌};
ghost use Rattle.ncc_schema.specs.Schema.{Legal, places_of};
ghost use Rattle.ncc_layout.specs.Bounds.{records_by};
ghost use Rattle.ncc_layout.specs.Extents.{end, fixed_of, greatest_end, records_of};
ghost use Rattle.ncc_layout.specs.Sizes.{AreSizes};
ghost use Rattle.ncc_check.specs.Notes.{extents_in};
ghost use Rattle.ncc_places.specs.Ends.{end_of_all, end_of_records, known_or, last_end, records_in};

use ncc_header::{Count, Header};
use ncc_layout::laws::no_extent_is_empty;
use ncc_layout::{Extent, Sizes};
use ncc_parts::records_begin;

/// The records of a file, in bytes from its start.
#[derive(Clone, Copy, Debug, PartialEq, Eq)]
pub struct Records {
    /// How many there are.
    pub count: u64,
    /// The offset of the first byte of the first.
    pub begin: u64,
    /// The bytes of one.
    pub size: u64,
    /// The offset of the first byte after the last slab of the last; without records that is `begin`.
    pub end: u128,
}

/// Where the last of the fixed variables ends.
fn fixed_end(extents: &[Extent]) -> u128
    ensures { result ≡ greatest_end (fixed_of extents.now) }
{
    let mut last = 0;
    for extent in extents {
        if !extent.is_record {
            last = last.max(extent.end());
        }
    }
    last
}

/// Where an extent ends, which is before 2^65.
fn end_of(extent: &Extent) -> u128
    ensures value { result ≡ end extent.now }
    ensures small { result < 2 ^ 65 }
{
    extent.begin as u128 + extent.slab as u128
}

/// Where the last slab of the first record ends.
pub fn slabs_end(extents: &[Extent]) -> u128
    ensures value { result ≡ greatest_end (records_of extents.now) }
    ensures small { result < 2 ^ 65 }
{
    let mut last = 0;
    for extent in extents {
        if extent.is_record {
            last = last.max(end_of(extent));
        }
    }
    last
}

/// How many records there are in a file of this length, of which the first has its last slab up to `slabs_end`.
fn record_count(count: Count, slabs_end: u128, size: u64, file_length: u64) -> u64
    requires some { 0 < slabs_end }
    requires stride { 0 < size }
    ensures { result ≡ known_or count (records_by slabs_end size file_length) }
{
    match count {
        Count::Known(n) => return n,
        Count::Streaming => {}
    }
    if (file_length as u128) < slabs_end {
        return 0;
    }
    1 + (file_length - slabs_end as u64) / size
}

/// Where the last of so many records ends.
fn last_end(size: u64, count: u64, begin: u64, slabs_end: u128) -> u128
    requires { slabs_end < 2 ^ 65 }
    ensures { result ≡ last_end size count begin slabs_end }
{
    if count == 0 {
        return begin as u128;
    }
    slabs_end + (count - 1) as u128 * size as u128
}

/// The records of a file of this length, of which these are the extents in the order of the header.
pub fn records_in(
    header: &Header,
    sizes: &Sizes,
    extents: &[Extent],
    file_length: u64,
) -> Option<Records>
    requires legal { Legal header.now.schema (places_of header.now.places) }
    requires sizes { AreSizes header.now.schema sizes.now }
    requires extents { extents.now ≡ extents_in header.now }
    ensures { result ≡ records_in header.now file_length }
{
    no_extent_is_empty();
    let begin = records_begin(header, sizes)?;
    let slabs_end = slabs_end(extents);
    let size = sizes.record_size;
    let count = record_count(header.schema.count, slabs_end, size, file_length);
    Some(Records {
        count,
        begin,
        size,
        end: last_end(size, count, begin, slabs_end),
    })
}

/// Where records end, or 0 where there are none.
fn end_of_records(records: Option<Records>) -> u128
    ensures { result ≡ end_of_records records }
{
    match records {
        Some(records) if records.count > 0 => records.end,
        _ => 0,
    }
}

/// Where all ends that a header of this length speaks of.
pub fn end_of_all(header_length: u64, extents: &[Extent], records: Option<Records>) -> u128
    ensures { result ≡ end_of_all header_length extents.now records }
{
    (header_length as u128)
        .max(fixed_end(extents))
        .max(end_of_records(records))
}
