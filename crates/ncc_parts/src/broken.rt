//! The numbers by which a layout rule fails.

ghost use Rattle.std.specs.Prelude.{◌≡◌, ◌+◌, ◌<◌, ◌==◌, length, position};
ghost use Rattle.ncc_schema.specs.Schema.{Legal, places_of};
ghost use Rattle.ncc_layout.specs.Sizes.{AreSizes};
ghost use Rattle.ncc_parts.specs.Breaking.{fixed_after_records, broken_by, in_header, in_last_record, last_end, overlap, overlaps, record_window, truncated};

use crate::extents::{extent_of, records_begin};
use ncc_header::{Count, Header, VarPlace};
use ncc_layout::{Extent, LayoutFaultKind, Sizes};

/// The numbers by which a layout rule fails for a variable: offsets in bytes.
#[derive(Clone, Copy, Debug, PartialEq, Eq)]
pub enum Broken {
    /// It begins before the header ends.
    InHeader { begin: u64, header: u64 },
    /// It begins before another one ends, which comes first.
    Overlap { begin: u64, other: usize, end: u128 },
    /// Its slab in record 0 ends past the end of that record.
    RecordWindow { end: u128, window: u128 },
    /// It is fixed, and ends past the begin of the records.
    FixedAfterRecords { end: u128, records: u64 },
    /// It ends past the end of the file; a record variable does in the last record.
    Truncated { end: u128, file: u64 },
}

/// The number of the variable whose begin field is at this offset.
pub fn variable_at(places: &[VarPlace], offset: u64) -> Option<usize>
    ensures { result ≡ position (λ p. p.begin_at == offset) places.now }
{
    places.iter().position(|place| place.begin_at == offset)
}

/// Whether the variable begins before the header ends.
fn in_header(header: &Header, sizes: &Sizes, number: usize) -> Option<Broken>
    requires legal { Legal header.now.schema (places_of header.now.places) }
    requires sizes { AreSizes header.now.schema sizes.now }
    requires there { number < length header.now.schema.vars }
    ensures { result ≡ in_header header.now number }
{
    let begin = extent_of(header, sizes, number).begin;
    if begin < header.length {
        return Some(Broken::InHeader {
            begin,
            header: header.length,
        });
    }
    None
}

/// Whether an extent is of the same kind as a later one, and ends past its begin.
fn overlaps(earlier: &Extent, later: &Extent) -> bool
    ensures { result ≡ overlaps earlier.now later.now }
{
    let ordered = earlier.begin < later.begin
        || (earlier.begin == later.begin && earlier.variable < later.variable);
    ordered && earlier.is_record == later.is_record && (later.begin as u128) < earlier.end()
}

/// The first variable that comes before this one and ends past its begin.
fn overlap(header: &Header, sizes: &Sizes, number: usize) -> Option<Broken>
    requires legal { Legal header.now.schema (places_of header.now.places) }
    requires sizes { AreSizes header.now.schema sizes.now }
    requires there { number < length header.now.schema.vars }
    ensures { result ≡ overlap header.now number }
{
    let later = extent_of(header, sizes, number);
    for other in 0..header.schema.vars.len() {
        let earlier = extent_of(header, sizes, other);
        if overlaps(&earlier, &later) {
            return Some(Broken::Overlap {
                begin: later.begin,
                other,
                end: earlier.end(),
            });
        }
    }
    None
}

/// Whether the variable has its slab in record 0 past the end of that record.
fn record_window(header: &Header, sizes: &Sizes, number: usize) -> Option<Broken>
    requires legal { Legal header.now.schema (places_of header.now.places) }
    requires sizes { AreSizes header.now.schema sizes.now }
    requires there { number < length header.now.schema.vars }
    ensures { result ≡ record_window header.now number }
{
    let extent = extent_of(header, sizes, number);
    let begin = records_begin(header, sizes)?;
    let window = begin as u128 + sizes.record_size as u128;
    let end = extent.end();
    if extent.is_record && window < end {
        return Some(Broken::RecordWindow { end, window });
    }
    None
}

/// Whether the variable is fixed and ends past the begin of the records.
fn fixed_after_records(header: &Header, sizes: &Sizes, number: usize) -> Option<Broken>
    requires legal { Legal header.now.schema (places_of header.now.places) }
    requires sizes { AreSizes header.now.schema sizes.now }
    requires there { number < length header.now.schema.vars }
    ensures { result ≡ fixed_after_records header.now number }
{
    let extent = extent_of(header, sizes, number);
    let records = records_begin(header, sizes)?;
    let end = extent.end();
    if !extent.is_record && (records as u128) < end {
        return Some(Broken::FixedAfterRecords { end, records });
    }
    None
}

/// Where a slab ends in the last record, where the header tells that there is one.
fn in_last_record(begin: u64, slab: u64, record_size: u64, count: Count) -> Option<u128>
    ensures { result ≡ in_last_record record_size count (begin + slab) }
{
    match count {
        Count::Known(0) => None,
        Count::Known(records) => {
            let further = (records - 1) as u128 * record_size as u128;
            Some(begin as u128 + slab as u128 + further)
        }
        Count::Streaming => None,
    }
}

/// Where a variable ends: a record variable in the last record.
fn last_end(extent: &Extent, record_size: u64, count: Count) -> Option<u128>
    ensures { result ≡ last_end record_size count extent.now }
{
    if extent.is_record {
        in_last_record(extent.begin, extent.slab, record_size, count)
    } else {
        Some(extent.end())
    }
}

/// Whether the variable ends past the end of a file of this length.
fn truncated(header: &Header, sizes: &Sizes, file: u64, number: usize) -> Option<Broken>
    requires legal { Legal header.now.schema (places_of header.now.places) }
    requires sizes { AreSizes header.now.schema sizes.now }
    requires there { number < length header.now.schema.vars }
    ensures { result ≡ truncated header.now file number }
{
    let extent = extent_of(header, sizes, number);
    let end = last_end(&extent, sizes.record_size, header.schema.count)?;
    if (file as u128) < end {
        return Some(Broken::Truncated { end, file });
    }
    None
}

/// The numbers by which this rule fails for a variable in a file of this length.
pub fn broken_by(
    header: &Header,
    sizes: &Sizes,
    file: u64,
    kind: LayoutFaultKind,
    number: usize,
) -> Option<Broken>
    requires legal { Legal header.now.schema (places_of header.now.places) }
    requires sizes { AreSizes header.now.schema sizes.now }
    requires there { number < length header.now.schema.vars }
    ensures { result ≡ broken_by header.now file kind number }
{
    match kind {
        LayoutFaultKind::TooLarge => None,
        LayoutFaultKind::InHeader => in_header(header, sizes, number),
        LayoutFaultKind::Overlap => overlap(header, sizes, number),
        LayoutFaultKind::RecordWindow => record_window(header, sizes, number),
        LayoutFaultKind::FixedAfterRecords => fixed_after_records(header, sizes, number),
        LayoutFaultKind::Truncated => truncated(header, sizes, file, number),
    }
}
