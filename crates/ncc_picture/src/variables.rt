//! Variables in a bar.

ghost use Rattle.std.specs.Prelude.{◌≡◌, ◌++◌, OnOk};
ghost use Rattle.std.specs.List.{flat_map};
ghost use Rattle.ncc_picture.specs.Variables.{file_parts, gap, gaps, is_there, own_bytes, own_in_file, shared_bytes, shared_in_file};

use crate::parts::Part;
use crate::spans::push_span;
use crate::words::{class_of, part_words};
use ncc_header::Schema;
use ncc_layout::Extent;
use std::alloc::{AllocError, Global};

/// Adds all bytes of a variable, of places from here on.
pub fn push_own(
    out: &mut Vec<u8>,
    far: u128,
    y: u128,
    from: u128,
    part: &Part,
    title: &[u8],
) -> Result<(), AllocError>
    ensures { OnOk result (out.new.items ≡ out.old.items ++ own_bytes far y from part.now title.now) }
{
    let begin = (part.extent.begin as u128).saturating_sub(from);
    let end = part.extent.end().saturating_sub(from);
    push_span(out, far, y, &class_of(part.line), begin, end, title)
}

/// Adds those that it shares.
pub fn push_shared(
    out: &mut Vec<u8>,
    far: u128,
    y: u128,
    from: u128,
    part: &Part,
    title: &[u8],
) -> Result<(), AllocError>
    ensures { OnOk result (out.new.items ≡ out.old.items ++ shared_bytes far y from part.now title.now) }
{
    let begin = part.extent.begin as u128;
    if begin >= part.past {
        return Ok(());
    }
    let end = part.past.min(part.extent.end());
    push_span(
        out,
        far,
        y,
        b"bad",
        begin.saturating_sub(from),
        end.saturating_sub(from),
        title,
    )
}

/// Whether there are bytes of a variable.
fn is_there(has_records: bool, extent: &Extent) -> bool
    ensures { result ≡ is_there has_records extent.now }
{
    if extent.is_record { has_records } else { true }
}

/// Adds the gap before a variable.
fn push_gap(
    alloc: Global,
    out: &mut Vec<u8>,
    schema: &Schema,
    far: u128,
    has_records: bool,
    part: &Part,
) -> Result<(), AllocError>
    ensures { OnOk result (out.new.items ≡ out.old.items ++ gap schema.now far has_records part.now) }
{
    let begin = part.extent.begin as u128;
    if is_there(has_records, &part.extent) && part.past < begin {
        let words = part_words(alloc, schema, part)?;
        return push_span(out, far, 30, b"gap", part.past, begin, &words);
    }
    Ok(())
}

/// Adds the gaps before variables.
pub fn push_gaps(
    alloc: Global,
    out: &mut Vec<u8>,
    schema: &Schema,
    far: u128,
    has_records: bool,
    parts: &[Part],
) -> Result<(), AllocError>
    ensures { OnOk result (out.new.items ≡ out.old.items ++ gaps schema.now far has_records parts.now) }
{
    for part in parts {
        push_gap(alloc, out, schema, far, has_records, part)?;
    }
    Ok(())
}

/// Adds a fixed variable.
fn push_own_in_file(
    alloc: Global,
    out: &mut Vec<u8>,
    schema: &Schema,
    far: u128,
    part: &Part,
) -> Result<(), AllocError>
    ensures { OnOk result (out.new.items ≡ out.old.items ++ own_in_file schema.now far part.now) }
{
    if part.extent.is_record {
        return Ok(());
    }
    let words = part_words(alloc, schema, part)?;
    push_own(out, far, 30, 0, part, &words)
}

/// Adds the fixed variables.
fn push_owns_in_file(
    alloc: Global,
    out: &mut Vec<u8>,
    schema: &Schema,
    far: u128,
    parts: &[Part],
) -> Result<(), AllocError>
    ensures { OnOk result (out.new.items ≡ out.old.items ++ flat_map (own_in_file schema.now far) parts.now) }
{
    for part in parts {
        push_own_in_file(alloc, out, schema, far, part)?;
    }
    Ok(())
}

/// Adds what a variable shares, of a record variable too.
fn push_shared_in_file(
    alloc: Global,
    out: &mut Vec<u8>,
    schema: &Schema,
    far: u128,
    has_records: bool,
    part: &Part,
) -> Result<(), AllocError>
    ensures { OnOk result (out.new.items ≡ out.old.items ++ shared_in_file schema.now far has_records part.now) }
{
    if is_there(has_records, &part.extent) {
        let words = part_words(alloc, schema, part)?;
        return push_shared(out, far, 30, 0, part, &words);
    }
    Ok(())
}

/// Adds what variables share.
fn push_all_shared_in_file(
    alloc: Global,
    out: &mut Vec<u8>,
    schema: &Schema,
    far: u128,
    has_records: bool,
    parts: &[Part],
) -> Result<(), AllocError>
    ensures { OnOk result (out.new.items
        ≡ out.old.items ++ flat_map (shared_in_file schema.now far has_records) parts.now) }
{
    for part in parts {
        push_shared_in_file(alloc, out, schema, far, has_records, part)?;
    }
    Ok(())
}

/// Adds variables, and what they share over them.
pub fn push_file_parts(
    alloc: Global,
    out: &mut Vec<u8>,
    schema: &Schema,
    far: u128,
    has_records: bool,
    parts: &[Part],
) -> Result<(), AllocError>
    ensures { OnOk result (out.new.items ≡ out.old.items ++ file_parts schema.now far has_records parts.now) }
{
    push_owns_in_file(alloc, out, schema, far, parts)?;
    push_all_shared_in_file(alloc, out, schema, far, has_records, parts)
}
