//! The lines below the bars.

ghost use Rattle.std.specs.Prelude.{◌≡◌, ◌<◌, ◌++◌, ◌^◌, OnOk};
ghost use Rattle.ncc_picture.specs.Rows.{after_parts, head_rows, height, last_number, others_row, part_row, part_rows, records_row, rest_class, rest_row, row, row_place, rows, tail_rows, top_of};

use crate::choosing::LINES;
use crate::frame::Frame;
use crate::marks::{push_bare, push_rect, push_text_at};
use crate::parts::{Part, other_bytes};
use crate::words::{class_of, counted_words, others_words, part_words, records_words, rest_words};
use ncc_header::Schema;
use ncc_places::Records;
use std::alloc::{AllocError, Global};

/// Adds a swatch and a text.
fn push_row(out: &mut Vec<u8>, y: u128, class: &[u8], text: &[u8]) -> Result<(), AllocError>
    requires { y < 2 ^ 72 }
    ensures { OnOk result (out.new.items ≡ out.old.items ++ row y class.now text.now) }
{
    push_rect(out, class, 0, y, 14, 12)?;
    push_bare(out)?;
    push_text_at(out, 22, y + 11, text)
}

/// Where the line with a number stands, of which the first stands at `top`.
fn row_place(top: u64, number: u128) -> u128
    requires { number < 2 ^ 66 }
    ensures value { result ≡ row_place top number }
    ensures small { result < 2 ^ 72 }
{
    top as u128 + 18 * number
}

/// Where the first line stands.
pub fn top_of(records: Option<Records>) -> u64
    ensures { result ≡ top_of records }
{
    match records {
        Some(_) => 154,
        None => 84,
    }
}

/// Adds the line of a variable, if it has one.
fn push_part_row(
    alloc: Global,
    out: &mut Vec<u8>,
    schema: &Schema,
    top: u64,
    part: &Part,
) -> Result<(), AllocError>
    ensures { OnOk result (out.new.items ≡ out.old.items ++ part_row schema.now top part.now) }
{
    let Some(line) = part.line else {
        return Ok(());
    };
    let words = part_words(alloc, schema, part)?;
    let y = row_place(top, 2 + line as u128);
    push_row(out, y, &class_of(Some(line)), &words)
}

/// Adds those of all variables.
fn push_part_rows(
    alloc: Global,
    out: &mut Vec<u8>,
    schema: &Schema,
    top: u64,
    parts: &[Part],
) -> Result<(), AllocError>
    ensures { OnOk result (out.new.items ≡ out.old.items ++ part_rows schema.now top parts.now) }
{
    for part in parts {
        push_part_row(alloc, out, schema, top, part)?;
    }
    Ok(())
}

/// Adds the line of the variables without one of their own.
fn push_others_row(
    alloc: Global,
    out: &mut Vec<u8>,
    top: u64,
    parts: &[Part],
) -> Result<(), AllocError>
    ensures { OnOk result (out.new.items ≡ out.old.items ++ others_row top parts.now) }
{
    if parts.len() <= LINES {
        return Ok(());
    }
    let words = others_words(alloc, parts.len() - LINES, other_bytes(parts))?;
    push_row(out, row_place(top, 42), &class_of(None), &words)
}

/// The number of the line after those of variables.
fn after_parts(count: usize) -> u64
    ensures value { result ≡ after_parts count }
    ensures small { result < 44 }
{
    2 + count.min(LINES + 1) as u64
}

/// Adds the line of the records.
fn push_records_row(
    alloc: Global,
    out: &mut Vec<u8>,
    top: u64,
    number: u64,
    records: Option<Records>,
) -> Result<(), AllocError>
    ensures { OnOk result (out.new.items ≡ out.old.items ++ records_row top number records) }
{
    let Some(records) = records else {
        return Ok(());
    };
    let words = records_words(alloc, records)?;
    push_row(out, row_place(top, number as u128), b"records", &words)
}

/// The number of the last line.
fn last_number(frame: Frame, count: usize) -> u64
    ensures value { result ≡ last_number frame count }
    ensures small { result < 45 }
{
    match frame.records {
        Some(_) => after_parts(count) + 1,
        None => after_parts(count),
    }
}

/// The class of what is missing, or follows all.
fn rest_class(file_length: u64, past: u128) -> &'static [u8]
    ensures { result.now ≡ rest_class file_length past }
{
    if (file_length as u128) < past {
        b"bad"
    } else {
        b"after"
    }
}

/// Adds the line of what is missing, or follows all.
fn push_rest_row(
    alloc: Global,
    out: &mut Vec<u8>,
    top: u64,
    number: u64,
    file_length: u64,
    past: u128,
) -> Result<(), AllocError>
    ensures { OnOk result (out.new.items ≡ out.old.items ++ rest_row top number file_length past) }
{
    let words = rest_words(alloc, file_length, past)?;
    let y = row_place(top, number as u128);
    push_row(out, y, rest_class(file_length, past), &words)
}

/// Adds the lines of the file and of the header.
fn push_head_rows(
    alloc: Global,
    out: &mut Vec<u8>,
    top: u64,
    file_length: u64,
    header_length: u64,
) -> Result<(), AllocError>
    ensures { OnOk result (out.new.items ≡ out.old.items ++ head_rows top file_length header_length) }
{
    let file = counted_words(alloc, b"file ", file_length as u128)?;
    push_row(out, top as u128, b"gap", &file)?;
    let header = counted_words(alloc, b"header 0 ", header_length as u128)?;
    push_row(out, row_place(top, 1), b"header", &header)
}

/// Adds the lines after those of variables.
fn push_tail_rows(
    alloc: Global,
    out: &mut Vec<u8>,
    frame: Frame,
    top: u64,
    count: usize,
) -> Result<(), AllocError>
    ensures { OnOk result (out.new.items ≡ out.old.items ++ tail_rows frame top count) }
{
    push_records_row(alloc, out, top, after_parts(count), frame.records)?;
    let last = last_number(frame, count);
    push_rest_row(alloc, out, top, last, frame.file_length, frame.past)
}

/// Adds all lines.
pub fn push_rows(
    alloc: Global,
    out: &mut Vec<u8>,
    schema: &Schema,
    frame: Frame,
    top: u64,
    parts: &[Part],
) -> Result<(), AllocError>
    ensures { OnOk result (out.new.items ≡ out.old.items ++ rows schema.now frame top parts.now) }
{
    push_head_rows(alloc, out, top, frame.file_length, frame.header_length)?;
    push_part_rows(alloc, out, schema, top, parts)?;
    push_others_row(alloc, out, top, parts)?;
    push_tail_rows(alloc, out, frame, top, parts.len())
}

/// How high the picture is.
pub fn height(frame: Frame, count: usize) -> u128
    ensures { result ≡ height frame count }
{
    row_place(top_of(frame.records), last_number(frame, count) as u128 + 1)
}
