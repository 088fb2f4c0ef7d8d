//! The members of a layout's object.

ghost use Rattle.std.specs.Prelude.{◌≡◌, ◌++◌, OnOk};
ghost use Rattle.ncc_places.specs.Members.{between_members, extent_members, file_fault_members, head_members, kind_word, record_member, record_numbers, records_member, rest_member, variable_object, variable_objects, variables_member};

use crate::ends::Records;
use crate::lines::variable_name;
use json::Writer;
use ncc_check::FileFault;
use ncc_header::Schema;
use ncc_json::{
    put_bytes_member, put_fault, put_list, put_number, put_object, put_text, put_two, put_wide,
};
use ncc_layout::Extent;
use ncc_lines::{fault_name, layout_name};
use std::alloc::{AllocError, Global};

/// Adds the file's length, and that of the header.
#[tactic(auto, unfolding(crate::specs::Members::head_members))]
pub fn put_head(out: &mut Writer, file_length: u64, header_length: u64) -> Result<(), AllocError>
    ensures tokens { OnOk result (out.new.tokens ≡ out.old.tokens ++ head_members file_length header_length) }
    ensures before { out.new.before ≡ out.old.before }
{
    put_two(
        out,
        "file_length",
        file_length as u128,
        "header_length",
        header_length as u128,
    )
}

/// The word of a kind of variable.
fn kind_word(is_record: bool) -> &'static str
    ensures { result.now ≡ kind_word is_record }
{
    if is_record { "record" } else { "fixed" }
}

/// Adds where a variable begins and ends.
#[tactic(auto, unfolding(crate::specs::Members::extent_members))]
fn put_extent(out: &mut Writer, extent: &Extent) -> Result<(), AllocError>
    ensures tokens { OnOk result (out.new.tokens ≡ out.old.tokens ++ extent_members extent.now) }
    ensures before { out.new.before ≡ out.old.before }
{
    put_text(out, "kind", kind_word(extent.is_record))?;
    put_number(out, "begin", extent.begin)?;
    put_wide(out, "end", extent.end())?;
    Ok(())
}

/// Adds how far a variable begins after the end of all before it, or before that end.
fn put_between(out: &mut Writer, past: u128, begin: u64) -> Result<(), AllocError>
    ensures tokens { OnOk result (out.new.tokens ≡ out.old.tokens ++ between_members past begin) }
    ensures before { out.new.before ≡ out.old.before }
{
    let begin = begin as u128;
    if begin < past {
        return put_wide(out, "overlap", past - begin);
    }
    put_wide(out, "gap", begin - past)
}

/// Adds a variable, where all before it ends at `past`.
#[tactic(auto, unfolding(crate::specs::Members::variable_object))]
fn put_variable(
    alloc: Global,
    out: &mut Writer,
    schema: &Schema,
    past: u128,
    extent: &Extent,
) -> Result<(), AllocError>
    ensures tokens { OnOk result (out.new.tokens ≡ out.old.tokens ++ variable_object schema.now past extent.now) }
    ensures before { out.new.before ≡ out.old.before }
{
    out.begin_object()?;
    put_number(out, "number", extent.variable as u64)?;
    put_bytes_member(alloc, out, "name", variable_name(schema, extent.variable))?;
    put_extent(out, extent)?;
    put_between(out, past, extent.begin)?;
    out.end_object()?;
    Ok(())
}

/// Adds variables, which are in the order in which they lie in the file.
fn put_objects(
    alloc: Global,
    out: &mut Writer,
    schema: &Schema,
    header_length: u64,
    extents: &[Extent],
) -> Result<(), AllocError>
    ensures tokens { OnOk result
        (out.new.tokens ≡ out.old.tokens ++ variable_objects schema.now header_length extents.now) }
    ensures before { out.new.before ≡ out.old.before }
{
    let mut past = header_length as u128;
    for extent in extents {
        put_variable(alloc, out, schema, past, extent)?;
        past = past.max(extent.end());
    }
    Ok(())
}

/// Adds the list of variables.
#[tactic(auto, unfolding(crate::specs::Members::variables_member))]
pub fn put_variables(
    alloc: Global,
    out: &mut Writer,
    schema: &Schema,
    header_length: u64,
    extents: &[Extent],
) -> Result<(), AllocError>
    ensures tokens { OnOk result
        (out.new.tokens ≡ out.old.tokens ++ variables_member schema.now header_length extents.now) }
    ensures before { out.new.before ≡ out.old.before }
{
    put_list(out, "variables")?;
    put_objects(alloc, out, schema, header_length, extents)?;
    out.end_array()?;
    Ok(())
}

/// Adds the numbers of records.
#[tactic(auto, unfolding(crate::specs::Members::record_numbers))]
fn put_record_numbers(out: &mut Writer, records: Records) -> Result<(), AllocError>
    ensures tokens { OnOk result (out.new.tokens ≡ out.old.tokens ++ record_numbers records) }
    ensures before { out.new.before ≡ out.old.before }
{
    put_number(out, "count", records.count)?;
    put_number(out, "begin", records.begin)?;
    put_number(out, "size", records.size)?;
    put_wide(out, "end", records.end)?;
    Ok(())
}

/// Adds the records.
#[tactic(auto, unfolding(crate::specs::Members::record_member))]
fn put_record(out: &mut Writer, records: Records) -> Result<(), AllocError>
    ensures tokens { OnOk result (out.new.tokens ≡ out.old.tokens ++ record_member records) }
    ensures before { out.new.before ≡ out.old.before }
{
    put_object(out, "records")?;
    put_record_numbers(out, records)?;
    out.end_object()?;
    Ok(())
}

/// Adds the records, where there is a record variable.
pub fn put_records(out: &mut Writer, records: Option<Records>) -> Result<(), AllocError>
    ensures tokens { OnOk result (out.new.tokens ≡ out.old.tokens ++ records_member records) }
    ensures before { out.new.before ≡ out.old.before }
{
    match records {
        Some(records) => put_record(out, records),
        None => Ok(()),
    }
}

/// Adds how many bytes there are after `past`, or are missing up to it.
pub fn put_rest(out: &mut Writer, file_length: u64, past: u128) -> Result<(), AllocError>
    ensures tokens { OnOk result (out.new.tokens ≡ out.old.tokens ++ rest_member file_length past) }
    ensures before { out.new.before ≡ out.old.before }
{
    let file_length = file_length as u128;
    if file_length < past {
        return put_wide(out, "missing", past - file_length);
    }
    put_wide(out, "after", file_length - past)
}

/// Adds a file's fault.
pub fn put_file_fault(out: &mut Writer, fault: FileFault) -> Result<(), AllocError>
    ensures tokens { OnOk result (out.new.tokens ≡ out.old.tokens ++ file_fault_members fault) }
    ensures before { out.new.before ≡ out.old.before }
{
    match fault {
        FileFault::Header(fault) => put_fault(out, fault_name(fault.kind), fault.offset),
        FileFault::Layout(fault) => put_fault(out, layout_name(fault.kind), fault.offset),
    }
}
