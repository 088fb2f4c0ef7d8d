//! The records in the bar of the whole file.

ghost use Rattle.std.specs.Prelude.{◌≡◌, ◌++◌, OnOk};
ghost use Rattle.ncc_picture.specs.Bands.{band, band_of, division, divisions};

use crate::marks::{push_bare, push_rect};
use crate::spans::{place, push_span};
use crate::words::records_words;
use ncc_places::Records;
use std::alloc::{AllocError, Global};

/// Adds a line where the record with this number begins.
fn push_division(
    out: &mut Vec<u8>,
    far: u128,
    begin: u64,
    size: u64,
    number: u64,
) -> Result<(), AllocError>
    ensures { OnOk result (out.new.items ≡ out.old.items ++ division far begin size number) }
{
    let start = begin as u128 + number as u128 * size as u128;
    push_rect(out, b"cut", place(far, start), 30, 1, 36)?;
    push_bare(out)
}

/// Adds those of the first so many.
fn push_divisions(
    out: &mut Vec<u8>,
    far: u128,
    begin: u64,
    size: u64,
    count: u64,
) -> Result<(), AllocError>
    ensures { OnOk result (out.new.items ≡ out.old.items ++ divisions far begin size count) }
{
    for number in 0..count {
        push_division(out, far, begin, size, number)?;
    }
    Ok(())
}

/// Adds all bytes from the first record to the last.
fn push_band(
    alloc: Global,
    out: &mut Vec<u8>,
    far: u128,
    records: Records,
) -> Result<(), AllocError>
    ensures { OnOk result (out.new.items ≡ out.old.items ++ band far records) }
{
    let words = records_words(alloc, records)?;
    push_span(
        out,
        far,
        30,
        b"records",
        records.begin as u128,
        records.end,
        &words,
    )?;
    if records.count > 64 {
        return Ok(());
    }
    push_divisions(out, far, records.begin, records.size, records.count)
}

/// Adds the records, where there are some.
pub fn push_band_of(
    alloc: Global,
    out: &mut Vec<u8>,
    far: u128,
    records: Option<Records>,
) -> Result<(), AllocError>
    ensures { OnOk result (out.new.items ≡ out.old.items ++ band_of far records) }
{
    let Some(records) = records else {
        return Ok(());
    };
    if records.count == 0 {
        return Ok(());
    }
    push_band(alloc, out, far, records)
}
