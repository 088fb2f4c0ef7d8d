//! The lines of a layout.

ghost use Rattle.std.specs.Prelude.{◌≡◌, ◌++◌, OnOk, decimal};
ghost use Rattle.ncc_schema.specs.declared.names.NameOf.TheVariants as of;
ghost use Rattle.ncc_schema.specs.Names.{name_of};
ghost use Rattle.ncc_places.specs.Words.{between_words, count_words, extent_words, head_lines, kind_words, record_line, records_line, rest_line, size_words, variable_line, variable_lines};

use crate::ends::Records;
use itoa::Buffer;
use ncc_header::Schema;
use ncc_layout::Extent;
use ncc_lines::{push_decimal, push_name};
use std::alloc::AllocError;

/// Adds a number of up to 128 bits.
pub fn push_wide(out: &mut Vec<u8>, n: u128) -> Result<(), AllocError>
    ensures { OnOk result (out.new.items ≡ out.old.items ++ decimal n) }
{
    let mut buffer = Buffer::new();
    out.extend_from_slice(buffer.format(n).as_bytes())?;
    Ok(())
}

/// Adds the lines of the file's length and of the header.
#[tactic(auto, unfolding(crate::specs::Words::head_lines))]
pub fn push_head(out: &mut Vec<u8>, file_length: u64, header_length: u64) -> Result<(), AllocError>
    ensures { OnOk result (out.new.items ≡ out.old.items ++ head_lines file_length header_length) }
{
    out.extend_from_slice(b"file ")?;
    push_decimal(out, file_length)?;
    out.extend_from_slice(b"\nheader 0 ")?;
    push_decimal(out, header_length)?;
    out.extend_from_slice(b"\n")?;
    Ok(())
}

/// The words of a kind of variable.
fn kind_words(is_record: bool) -> &'static [u8]
    ensures { result.now ≡ kind_words is_record }
{
    if is_record {
        b" record begin "
    } else {
        b" fixed begin "
    }
}

/// Adds where a variable begins and ends.
#[tactic(auto, unfolding(crate::specs::Words::extent_words))]
pub fn push_extent(out: &mut Vec<u8>, extent: &Extent) -> Result<(), AllocError>
    ensures { OnOk result (out.new.items ≡ out.old.items ++ extent_words extent.now) }
{
    out.extend_from_slice(kind_words(extent.is_record))?;
    push_decimal(out, extent.begin)?;
    out.extend_from_slice(b" end ")?;
    push_wide(out, extent.end())
}

/// Adds how far a variable begins after the end of all before it, or before that end.
#[tactic(auto, unfolding(crate::specs::Words::between_words))]
pub fn push_between(out: &mut Vec<u8>, past: u128, begin: u64) -> Result<(), AllocError>
    ensures { OnOk result (out.new.items ≡ out.old.items ++ between_words past begin) }
{
    let begin = begin as u128;
    if begin < past {
        out.extend_from_slice(b" overlap ")?;
        return push_wide(out, past - begin);
    }
    out.extend_from_slice(b" gap ")?;
    push_wide(out, begin - past)
}

/// The name of a variable, or an empty one where there are not so many.
pub fn variable_name(schema: &Schema, number: usize) -> &[u8]
    ensures { result.now ≡ name_of schema.now (of.Var number) }
{
    match schema.vars.as_slice().get(number) {
        Some(var) => var.name.as_slice(),
        None => &[],
    }
}

/// Adds the line of a variable, where all before it ends at `past`.
#[tactic(auto, unfolding(crate::specs::Words::variable_line))]
fn push_variable(
    out: &mut Vec<u8>,
    schema: &Schema,
    past: u128,
    extent: &Extent,
) -> Result<(), AllocError>
    ensures { OnOk result (out.new.items ≡ out.old.items ++ variable_line schema.now past extent.now) }
{
    out.extend_from_slice(b"variable ")?;
    push_decimal(out, extent.variable as u64)?;
    out.extend_from_slice(b" ")?;
    push_name(out, variable_name(schema, extent.variable))?;
    push_extent(out, extent)?;
    push_between(out, past, extent.begin)?;
    out.extend_from_slice(b"\n")?;
    Ok(())
}

/// Adds the lines of variables, which are in the order in which they lie in the file.
pub fn push_variables(
    out: &mut Vec<u8>,
    schema: &Schema,
    header_length: u64,
    extents: &[Extent],
) -> Result<(), AllocError>
    ensures { OnOk result
        (out.new.items ≡ out.old.items ++ variable_lines schema.now header_length extents.now) }
{
    let mut past = header_length as u128;
    for extent in extents {
        push_variable(out, schema, past, extent)?;
        past = past.max(extent.end());
    }
    Ok(())
}

/// Adds how many records there are, and where the first begins.
#[tactic(auto, unfolding(crate::specs::Words::count_words))]
fn push_count(out: &mut Vec<u8>, count: u64, begin: u64) -> Result<(), AllocError>
    ensures { OnOk result (out.new.items ≡ out.old.items ++ count_words count begin) }
{
    out.extend_from_slice(b"records ")?;
    push_decimal(out, count)?;
    out.extend_from_slice(b" begin ")?;
    push_decimal(out, begin)
}

/// Adds the bytes of a record, and where the last one ends.
#[tactic(auto, unfolding(crate::specs::Words::size_words))]
fn push_size(out: &mut Vec<u8>, size: u64, end: u128) -> Result<(), AllocError>
    ensures { OnOk result (out.new.items ≡ out.old.items ++ size_words size end) }
{
    out.extend_from_slice(b" size ")?;
    push_decimal(out, size)?;
    out.extend_from_slice(b" end ")?;
    push_wide(out, end)?;
    out.extend_from_slice(b"\n")?;
    Ok(())
}

/// Adds the line of records.
pub fn push_record_line(out: &mut Vec<u8>, records: Records) -> Result<(), AllocError>
    ensures { OnOk result (out.new.items ≡ out.old.items ++ record_line records) }
{
    push_count(out, records.count, records.begin)?;
    push_size(out, records.size, records.end)
}

/// Adds the line of the records, where there is a record variable.
pub fn push_records(out: &mut Vec<u8>, records: Option<Records>) -> Result<(), AllocError>
    ensures { OnOk result (out.new.items ≡ out.old.items ++ records_line records) }
{
    match records {
        Some(records) => push_record_line(out, records),
        None => Ok(()),
    }
}

/// Adds how many bytes there are after `past`, or are missing up to it.
#[tactic(auto, unfolding(crate::specs::Words::rest_line))]
pub fn push_rest(out: &mut Vec<u8>, file_length: u64, past: u128) -> Result<(), AllocError>
    ensures { OnOk result (out.new.items ≡ out.old.items ++ rest_line file_length past) }
{
    let file_length = file_length as u128;
    if file_length < past {
        out.extend_from_slice(b"missing ")?;
        push_wide(out, past - file_length)?;
    } else {
        out.extend_from_slice(b"after ")?;
        push_wide(out, file_length - past)?;
    }
    out.extend_from_slice(b"\n")?;
    Ok(())
}
