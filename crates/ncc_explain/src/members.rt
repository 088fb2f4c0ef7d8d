//! The numbers of a fault or a note, as members of an object.

ghost use Rattle.std.specs.Prelude.{◌≡◌, ◌++◌, OnOk, codes, get_or};
ghost use Rattle.ncc_schema.specs.declared.names.NameOf.TheVariants as of;
ghost use Rattle.ncc_schema.specs.Names.{name_of};
ghost use Rattle.ncc_layout.specs.Sizes.{AreSizes};
ghost use Rattle.ncc_lines.specs.Texts.{begin_of};
ghost use Rattle.ncc_explain.specs.Members.{broken_numbers, count_members, note_number_members, variable_member, vsize_members};

use crate::numbers::{begin_at, due_vsize, length_of, vsize_of};
use crate::parts::variable_name;
use json::Writer;
use ncc_check::NoteKind;
use ncc_header::{Count, Header, Schema};
use ncc_json::{put_bytes_member, put_number, put_two, put_wide};
use ncc_layout::Sizes;
use ncc_parts::{Broken, Part};
use std::alloc::{AllocError, Global};

/// Adds the vsize of a variable, and the one that its size gives.
#[tactic(auto, unfolding(crate::specs::Members::vsize_members))]
fn put_vsize(out: &mut Writer, there: u64, due: u64) -> Result<(), AllocError>
    ensures tokens { OnOk result (out.new.tokens ≡ out.old.tokens ++ vsize_members there due) }
    ensures before { out.new.before ≡ out.old.before }
{
    put_number(out, "vsize", there)?;
    put_number(out, "due", due)?;
    Ok(())
}

/// Adds the number of records, where it is known.
fn put_count(out: &mut Writer, count: Count) -> Result<(), AllocError>
    ensures tokens { OnOk result (out.new.tokens ≡ out.old.tokens ++ count_members count) }
    ensures before { out.new.before ≡ out.old.before }
{
    match count {
        Count::Known(n) => put_number(out, "numrecs", n),
        Count::Streaming => Ok(()),
    }
}

/// Adds the numbers of a note in this part.
pub fn put_note_numbers(
    out: &mut Writer,
    header: &Header,
    sizes: &Sizes,
    kind: NoteKind,
    part: Part,
) -> Result<(), AllocError>
    requires { AreSizes header.now.schema sizes.now }
    ensures tokens { OnOk result (out.new.tokens ≡ out.old.tokens ++ note_number_members header.now kind part) }
    ensures before { out.new.before ≡ out.old.before }
{
    match (kind, part) {
        (NoteKind::VsizeField, Part::Place(number)) => put_vsize(
            out,
            vsize_of(header.places.as_slice(), number),
            due_vsize(&header.schema, sizes, number),
        ),
        (NoteKind::UnalignedBegin, Part::Place(number)) => {
            put_number(out, "begin", begin_at(header, number))
        }
        (NoteKind::Order, Part::Place(number)) => {
            put_number(out, "begin", begin_at(header, number))
        }
        (NoteKind::LargeCount, Part::NumRecs) => put_count(out, header.schema.count),
        (NoteKind::LargeCount, Part::Dim(number)) => {
            put_number(
                out,
                "length",
                length_of(header.schema.dims.as_slice(), number),
            )
        }
        _ => Ok(()),
    }
}

/// Adds the name of a variable.
pub fn put_variable(
    alloc: Global,
    out: &mut Writer,
    schema: &Schema,
    name: &str,
    number: usize,
) -> Result<(), AllocError>
    ensures tokens { OnOk result (out.new.tokens ≡ out.old.tokens ++ variable_member schema.now name.now number) }
    ensures before { out.new.before ≡ out.old.before }
{
    put_bytes_member(alloc, out, name, variable_name(schema, number))
}

/// Adds where a variable begins, and where another one ends.
#[tactic(auto, unfolding(crate::specs::Members::broken_numbers))]
fn put_overlap(
    alloc: Global,
    out: &mut Writer,
    schema: &Schema,
    begin: u64,
    other: usize,
    end: u128,
) -> Result<(), AllocError>
    ensures tokens { OnOk result
        (out.new.tokens ≡ out.old.tokens ++ broken_numbers schema.now (Broken.Overlap begin other end)) }
    ensures before { out.new.before ≡ out.old.before }
{
    put_number(out, "begin", begin)?;
    put_variable(alloc, out, schema, "other", other)?;
    put_wide(out, "other_end", end)?;
    Ok(())
}

/// Adds the numbers by which a layout rule fails.
#[tactic(auto, unfolding(crate::specs::Members::broken_numbers))]
pub fn put_broken(
    alloc: Global,
    out: &mut Writer,
    schema: &Schema,
    broken: Broken,
) -> Result<(), AllocError>
    ensures tokens { OnOk result (out.new.tokens ≡ out.old.tokens ++ broken_numbers schema.now broken) }
    ensures before { out.new.before ≡ out.old.before }
{
    match broken {
        Broken::InHeader { begin, header } => {
            put_two(out, "begin", begin as u128, "header_end", header as u128)
        }
        Broken::Overlap { begin, other, end } => put_overlap(alloc, out, schema, begin, other, end),
        Broken::RecordWindow { end, window } => put_two(out, "end", end, "record_end", window),
        Broken::FixedAfterRecords { end, records } => {
            put_two(out, "end", end, "records_begin", records as u128)
        }
        Broken::Truncated { end, file } => put_two(out, "end", end, "file_length", file as u128),
    }
}
