//! The bar of one record.

ghost use Rattle.std.specs.Prelude.{◌≡◌, ◌++◌, OnOk};
ghost use Rattle.std.specs.List.{flat_map};
ghost use Rattle.ncc_picture.specs.RecordBar.{own_in_record, record_bar, record_end, record_far, record_ground, record_parts, shared_in_record};

use crate::marks::{push_bare, push_rect, push_text_at};
use crate::parts::Part;
use crate::spans::{place, push_span};
use crate::variables::{push_own, push_shared};
use crate::words::{counted_words, part_words, record_label, records_words};
use ncc_header::Schema;
use ncc_places::Records;
use std::alloc::{AllocError, Global};

/// How many bytes the bar has.
fn record_far(records: Records, slabs_end: u128) -> u128
    ensures { result ≡ record_far records slabs_end }
{
    (records.size as u128).max(slabs_end.saturating_sub(records.begin as u128))
}

/// Adds the part of a record variable.
fn push_own_in_record(
    alloc: Global,
    out: &mut Vec<u8>,
    schema: &Schema,
    far: u128,
    from: u64,
    part: &Part,
) -> Result<(), AllocError>
    ensures { OnOk result (out.new.items ≡ out.old.items ++ own_in_record schema.now far from part.now) }
{
    if !part.extent.is_record {
        return Ok(());
    }
    let words = part_words(alloc, schema, part)?;
    push_own(out, far, 100, from as u128, part, &words)
}

/// Adds those of all record variables.
fn push_owns_in_record(
    alloc: Global,
    out: &mut Vec<u8>,
    schema: &Schema,
    far: u128,
    from: u64,
    parts: &[Part],
) -> Result<(), AllocError>
    ensures { OnOk result (out.new.items ≡ out.old.items ++ flat_map (own_in_record schema.now far from) parts.now) }
{
    for part in parts {
        push_own_in_record(alloc, out, schema, far, from, part)?;
    }
    Ok(())
}

/// Adds what a record variable shares.
fn push_shared_in_record(
    alloc: Global,
    out: &mut Vec<u8>,
    schema: &Schema,
    far: u128,
    from: u64,
    part: &Part,
) -> Result<(), AllocError>
    ensures { OnOk result (out.new.items ≡ out.old.items ++ shared_in_record schema.now far from part.now) }
{
    if !part.extent.is_record {
        return Ok(());
    }
    let words = part_words(alloc, schema, part)?;
    push_shared(out, far, 100, from as u128, part, &words)
}

/// Adds what record variables share.
fn push_all_shared_in_record(
    alloc: Global,
    out: &mut Vec<u8>,
    schema: &Schema,
    far: u128,
    from: u64,
    parts: &[Part],
) -> Result<(), AllocError>
    ensures { OnOk result (out.new.items ≡ out.old.items ++ flat_map (shared_in_record schema.now far from) parts.now) }
{
    for part in parts {
        push_shared_in_record(alloc, out, schema, far, from, part)?;
    }
    Ok(())
}

/// Adds record variables, and what they share over them.
fn push_record_parts(
    alloc: Global,
    out: &mut Vec<u8>,
    schema: &Schema,
    far: u128,
    from: u64,
    parts: &[Part],
) -> Result<(), AllocError>
    ensures { OnOk result (out.new.items ≡ out.old.items ++ record_parts schema.now far from parts.now) }
{
    push_owns_in_record(alloc, out, schema, far, from, parts)?;
    push_all_shared_in_record(alloc, out, schema, far, from, parts)
}

/// Adds how far the bar goes, and all of it in white.
fn push_record_ground(
    alloc: Global,
    out: &mut Vec<u8>,
    far: u128,
    records: Records,
) -> Result<(), AllocError>
    ensures { OnOk result (out.new.items ≡ out.old.items ++ record_ground far records) }
{
    push_text_at(out, 0, 92, &counted_words(alloc, record_label(), far)?)?;
    push_span(
        out,
        far,
        100,
        b"gap",
        0,
        far,
        &records_words(alloc, records)?,
    )
}

/// Adds a line where the record ends.
fn push_record_end(out: &mut Vec<u8>, far: u128, size: u64) -> Result<(), AllocError>
    ensures { OnOk result (out.new.items ≡ out.old.items ++ record_end far size) }
{
    push_rect(out, b"cut", place(far, size as u128), 100, 1, 36)?;
    push_bare(out)
}

/// Adds the bar, where there is a record variable.
pub fn push_record_bar(
    alloc: Global,
    out: &mut Vec<u8>,
    schema: &Schema,
    slabs_end: u128,
    records: Option<Records>,
    parts: &[Part],
) -> Result<(), AllocError>
    ensures { OnOk result (out.new.items ≡ out.old.items ++ record_bar schema.now slabs_end records parts.now) }
{
    let Some(records) = records else {
        return Ok(());
    };
    let far = record_far(records, slabs_end);
    push_record_ground(alloc, out, far, records)?;
    push_record_parts(alloc, out, schema, far, records.begin, parts)?;
    push_record_end(out, far, records.size)
}
