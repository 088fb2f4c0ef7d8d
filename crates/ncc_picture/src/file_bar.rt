//! The bar of the whole file.

ghost use Rattle.std.specs.Prelude.{◌≡◌, ◌++◌, OnOk};
ghost use Rattle.ncc_picture.specs.FileBar.{far_of, file_bar, file_ground, has_records, rest};

use crate::bands::push_band_of;
use crate::frame::Frame;
use crate::marks::push_text_at;
use crate::parts::Part;
use crate::spans::push_span;
use crate::variables::{push_file_parts, push_gaps};
use crate::words::{counted_words, file_label, rest_words};
use ncc_header::Schema;
use ncc_places::Records;
use std::alloc::{AllocError, Global};

/// Where the bar ends.
pub fn far_of(frame: Frame) -> u128
    ensures { result ≡ far_of frame }
{
    (frame.file_length as u128).max(frame.past)
}

/// Whether there is a record.
fn has_records(records: Option<Records>) -> bool
    ensures { result ≡ has_records records }
{
    match records {
        Some(records) => records.count > 0,
        None => false,
    }
}

/// Adds what is missing, or follows all.
fn push_rest_bytes(
    alloc: Global,
    out: &mut Vec<u8>,
    far: u128,
    file_length: u64,
    past: u128,
) -> Result<(), AllocError>
    ensures { OnOk result (out.new.items ≡ out.old.items ++ rest far file_length past) }
{
    let words = rest_words(alloc, file_length, past)?;
    let end = file_length as u128;
    if end < past {
        return push_span(out, far, 30, b"bad", end, past, &words);
    }
    if past < end {
        return push_span(out, far, 30, b"after", past, end, &words);
    }
    Ok(())
}

/// Adds how far the bar goes, all of it in white, and the header.
fn push_file_ground(alloc: Global, out: &mut Vec<u8>, frame: Frame) -> Result<(), AllocError>
    ensures { OnOk result (out.new.items ≡ out.old.items ++ file_ground frame) }
{
    let far = far_of(frame);
    let file = frame.file_length as u128;
    let header = frame.header_length as u128;
    push_text_at(out, 0, 22, &counted_words(alloc, file_label(), far)?)?;
    push_span(
        out,
        far,
        30,
        b"gap",
        0,
        far,
        &counted_words(alloc, b"file ", file)?,
    )?;
    push_span(
        out,
        far,
        30,
        b"header",
        0,
        header,
        &counted_words(alloc, b"header 0 ", header)?,
    )
}

/// Adds the bar.
pub fn push_file_bar(
    alloc: Global,
    out: &mut Vec<u8>,
    schema: &Schema,
    frame: Frame,
    parts: &[Part],
) -> Result<(), AllocError>
    ensures { OnOk result (out.new.items ≡ out.old.items ++ file_bar schema.now frame parts.now) }
{
    let far = far_of(frame);
    let has_records = has_records(frame.records);
    push_file_ground(alloc, out, frame)?;
    push_gaps(alloc, out, schema, far, has_records, parts)?;
    push_band_of(alloc, out, far, frame.records)?;
    push_file_parts(alloc, out, schema, far, has_records, parts)?;
    push_rest_bytes(alloc, out, far, frame.file_length, frame.past)
}
