//! The numbers of a fault or a note, in words.

ghost use Rattle.std.specs.Prelude.{◌≡◌, ◌++◌, OnOk, codes, decimal, get_or};
ghost use Rattle.ncc_schema.specs.Schema.{lengths};
ghost use Rattle.ncc_layout.specs.Sizes.{AreSizes};
ghost use Rattle.ncc_check.specs.Notes.{vsize_words, vsizes};
ghost use Rattle.ncc_lines.specs.Texts.{begin_of};
ghost use Rattle.ncc_explain.specs.Words.{begin_line, broken_line, count_line, end_line, length_line, letter_lines, limit_line, note_numbers, number_line, number_lines, site_lines, vsize_line};

use crate::likeness::push_likeness;
use crate::parts::push_variable;
use crate::site::Site;
use itoa::Buffer;
use ncc_check::NoteKind;
use ncc_header::{Count, Dim, FaultKind, Header, Schema, VarPlace};
use ncc_layout::{Sizes, vsize_word};
use ncc_lines::push_decimal;
use ncc_parts::{Broken, Part};
use std::alloc::AllocError;

/// Adds a number of up to 128 bits.
fn push_wide(out: &mut Vec<u8>, n: u128) -> Result<(), AllocError>
    ensures { OnOk result (out.new.items ≡ out.old.items ++ decimal n) }
{
    let mut buffer = Buffer::new();
    out.extend_from_slice(buffer.format(n).as_bytes())?;
    Ok(())
}

/// Adds two numbers, each after its words, and a line feed.
fn push_two(
    out: &mut Vec<u8>,
    first: &[u8],
    a: u128,
    second: &[u8],
    b: u128,
) -> Result<(), AllocError>
    ensures { OnOk result (out.new.items ≡ out.old.items
        ++ (first.now ++ (decimal a ++ (second.now ++ (decimal b ++ codes "\n"))))) }
{
    out.extend_from_slice(first)?;
    push_wide(out, a)?;
    out.extend_from_slice(second)?;
    push_wide(out, b)?;
    out.extend_from_slice(b"\n")?;
    Ok(())
}

/// Adds a number after its words, and a line feed.
fn push_one(out: &mut Vec<u8>, words: &[u8], n: u64) -> Result<(), AllocError>
    ensures { OnOk result (out.new.items ≡ out.old.items ++ (words.now ++ (decimal n ++ codes "\n"))) }
{
    out.extend_from_slice(words)?;
    push_decimal(out, n)?;
    out.extend_from_slice(b"\n")?;
    Ok(())
}

/// Adds where a variable begins, and where another one ends.
#[tactic(auto, unfolding(crate::specs::Words::broken_line))]
fn push_overlap(
    out: &mut Vec<u8>,
    schema: &Schema,
    begin: u64,
    other: usize,
    end: u128,
) -> Result<(), AllocError>
    ensures { OnOk result (out.new.items ≡ out.old.items ++ broken_line schema.now (Broken.Overlap begin other end)) }
{
    out.extend_from_slice(b"    it begins at ")?;
    push_decimal(out, begin)?;
    out.extend_from_slice(b", and ")?;
    push_variable(out, schema, other)?;
    out.extend_from_slice(b" ends at ")?;
    push_wide(out, end)?;
    out.extend_from_slice(b"\n")?;
    Ok(())
}

/// Adds the numbers by which a layout rule fails.
#[tactic(auto, unfolding(crate::specs::Words::broken_line))]
pub fn push_broken(out: &mut Vec<u8>, schema: &Schema, broken: Broken) -> Result<(), AllocError>
    ensures { OnOk result (out.new.items ≡ out.old.items ++ broken_line schema.now broken) }
{
    match broken {
        Broken::InHeader { begin, header } => push_two(
            out,
            b"    it begins at ",
            begin as u128,
            b", and the header ends at ",
            header as u128,
        ),
        Broken::Overlap { begin, other, end } => push_overlap(out, schema, begin, other, end),
        Broken::RecordWindow { end, window } => {
            push_two(
                out,
                b"    it ends at ",
                end,
                b", and record 0 ends at ",
                window,
            )
        }
        Broken::FixedAfterRecords { end, records } => push_two(
            out,
            b"    it ends at ",
            end,
            b", and the records begin at ",
            records as u128,
        ),
        Broken::Truncated { end, file } => push_two(
            out,
            b"    it ends at ",
            end,
            b", and the file ends at ",
            file as u128,
        ),
    }
}

/// The vsize of a variable, or 0 where there are not so many.
pub fn vsize_of(places: &[VarPlace], number: usize) -> u64
    ensures { result ≡ get_or (vsizes places.now) number 0 }
{
    match places.get(number) {
        Some(place) => place.vsize,
        None => 0,
    }
}

/// The vsize that a variable's size gives, or 0 where there are not so many.
pub fn due_vsize(schema: &Schema, sizes: &Sizes, number: usize) -> u64
    requires { AreSizes schema.now sizes.now }
    ensures { result ≡ get_or (vsize_words schema.now) number 0 }
{
    match sizes.rounded.as_slice().get(number) {
        Some(rounded) => vsize_word(schema.version, *rounded),
        None => 0,
    }
}

/// Adds the vsize of a variable, and the one that its size gives.
#[tactic(auto, unfolding(crate::specs::Words::vsize_line))]
fn push_vsize(out: &mut Vec<u8>, there: u64, due: u64) -> Result<(), AllocError>
    ensures { OnOk result (out.new.items ≡ out.old.items ++ vsize_line there due) }
{
    push_two(
        out,
        b"    its vsize is ",
        there as u128,
        b", and its size gives ",
        due as u128,
    )
}

/// Where a variable begins, or 0 where there are not so many.
pub fn begin_at(header: &Header, number: usize) -> u64
    ensures { result ≡ begin_of header.now.places number }
{
    match header.places.as_slice().get(number) {
        Some(place) => place.begin,
        None => 0,
    }
}

/// Adds where a variable begins.
#[tactic(auto, unfolding(crate::specs::Words::begin_line))]
fn push_begin(out: &mut Vec<u8>, begin: u64) -> Result<(), AllocError>
    ensures { OnOk result (out.new.items ≡ out.old.items ++ begin_line begin) }
{
    push_one(out, b"    it begins at ", begin)
}

/// Adds the number of records, where it is known.
#[tactic(auto, unfolding(crate::specs::Words::count_line))]
fn push_count(out: &mut Vec<u8>, count: Count) -> Result<(), AllocError>
    ensures { OnOk result (out.new.items ≡ out.old.items ++ count_line count) }
{
    match count {
        Count::Known(n) => push_one(out, b"    it is ", n),
        Count::Streaming => Ok(()),
    }
}

/// The length of a dimension, or 0 where there are not so many.
pub fn length_of(dims: &[Dim], number: usize) -> u64
    ensures { result ≡ get_or (lengths dims.now) number 0 }
{
    match dims.get(number) {
        Some(dim) => dim.length,
        None => 0,
    }
}

/// Adds the length of a dimension.
#[tactic(auto, unfolding(crate::specs::Words::length_line))]
fn push_length(out: &mut Vec<u8>, length: u64) -> Result<(), AllocError>
    ensures { OnOk result (out.new.items ≡ out.old.items ++ length_line length) }
{
    push_one(out, b"    its length is ", length)
}

/// Adds the numbers of a note in this part.
pub fn push_note_numbers(
    out: &mut Vec<u8>,
    header: &Header,
    sizes: &Sizes,
    kind: NoteKind,
    part: Part,
) -> Result<(), AllocError>
    requires { AreSizes header.now.schema sizes.now }
    ensures { OnOk result (out.new.items ≡ out.old.items ++ note_numbers header.now kind part) }
{
    match (kind, part) {
        (NoteKind::VsizeField, Part::Place(number)) => push_vsize(
            out,
            vsize_of(header.places.as_slice(), number),
            due_vsize(&header.schema, sizes, number),
        ),
        (NoteKind::UnalignedBegin, Part::Place(number)) => {
            push_begin(out, begin_at(header, number))
        }
        (NoteKind::Order, Part::Place(number)) => push_begin(out, begin_at(header, number)),
        (NoteKind::LargeCount, Part::NumRecs) => push_count(out, header.schema.count),
        (NoteKind::LargeCount, Part::Dim(number)) => {
            push_length(out, length_of(header.schema.dims.as_slice(), number))
        }
        _ => Ok(()),
    }
}

/// Adds what the file looks like that begins with these letters, if they are known.
fn push_letters(out: &mut Vec<u8>, value: Option<u64>) -> Result<(), AllocError>
    ensures { OnOk result (out.new.items ≡ out.old.items ++ letter_lines value) }
{
    match value {
        Some(letters) => push_likeness(out, letters),
        None => Ok(()),
    }
}

/// Adds the number in a field.
#[tactic(auto, unfolding(crate::specs::Words::number_line))]
fn push_number(out: &mut Vec<u8>, n: u64) -> Result<(), AllocError>
    ensures { OnOk result (out.new.items ≡ out.old.items ++ number_line n) }
{
    push_one(out, b"    the number there is ", n)
}

/// Adds the number in a field, if it is known.
fn push_value(out: &mut Vec<u8>, value: Option<u64>) -> Result<(), AllocError>
    ensures { OnOk result (out.new.items ≡ out.old.items ++ number_lines value) }
{
    match value {
        Some(n) => push_number(out, n),
        None => Ok(()),
    }
}

/// Adds where the file ends.
#[tactic(auto, unfolding(crate::specs::Words::end_line))]
fn push_end(out: &mut Vec<u8>, file_length: u64) -> Result<(), AllocError>
    ensures { OnOk result (out.new.items ≡ out.old.items ++ end_line file_length) }
{
    push_one(out, b"    the file ends at ", file_length)
}

/// Adds the limit of a header's length.
#[tactic(auto, unfolding(crate::specs::Words::limit_line))]
fn push_limit(out: &mut Vec<u8>, limit: u64) -> Result<(), AllocError>
    ensures { OnOk result (out.new.items ≡ out.old.items ++ limit_line limit) }
{
    push_one(out, b"    the limit is ", limit)
}

/// Adds the limit of a header's length, and where the file ends.
fn push_bounds(out: &mut Vec<u8>, limit: u64, file_length: u64) -> Result<(), AllocError>
    ensures { OnOk result (out.new.items ≡ out.old.items ++ (limit_line limit ++ end_line file_length)) }
{
    push_limit(out, limit)?;
    push_end(out, file_length)
}

/// Adds the numbers of a header's fault.
pub fn push_site(
    out: &mut Vec<u8>,
    kind: FaultKind,
    limit: u64,
    site: &Site,
) -> Result<(), AllocError>
    ensures { OnOk result (out.new.items ≡ out.old.items ++ site_lines kind limit site.now) }
{
    match kind {
        FaultKind::BadMagic => push_letters(out, site.value),
        FaultKind::HeaderTooLong => push_bounds(out, limit, site.file_length),
        FaultKind::EndsEarly => push_end(out, site.file_length),
        _ => push_value(out, site.value),
    }
}
