//! The row of names.

ghost use Rattle.std.specs.Prelude.{◌≡◌, [], ◌∷◌, ◌++◌, IfOk, OnOk};
ghost use Rattle.csv.specs.Records.{fields_of, partial_of};
ghost use Rattle.ncc_lines.specs.Sends.{SendsAll, Blames};
ghost use Rattle.ncc_lines.specs.Words.{name_text};
ghost use Rattle.ncc_csv.specs.Names.{names_row, names_text};
ghost use Rattle.ncc_csv.specs.Rows.{row_line};
ghost use Rattle.ncc_csv.specs.Texts.{text_names};

use csv::{ByteRecord, Writer};
use ncc_header::{Dim, Sink, Var};
use ncc_lines::{SendError, dim_name, push_name, send_page};
use std::alloc::{AllocError, Global};

/// Adds a name to a record, by its text in `field`.
fn push_field(row: &mut ByteRecord, field: &mut Vec<u8>, name: &[u8]) -> Result<(), AllocError>
    requires { partial_of row.old ≡ [] }
    ensures fields { OnOk result (fields_of row.new ≡ fields_of row.old ++ name_text name.now ∷ []) }
    ensures whole { OnOk result (partial_of row.new ≡ []) }
{
    field.clear();
    push_name(field, name)?;
    row.push_field(field)
}

/// The row of the names of these dimensions and one more, as a record.
fn name_record(
    alloc: Global,
    dims: &[Dim],
    numbers: &[usize],
    name: &[u8],
) -> Result<ByteRecord, AllocError>
    ensures { IfOk result (λ row. fields_of row ≡ names_row dims.now numbers.now name.now) }
{
    let mut row = ByteRecord::new(alloc);
    let mut field = Vec::new(alloc);
    for id in numbers {
        push_field(&mut row, &mut field, dim_name(dims, *id))?;
    }
    push_field(&mut row, &mut field, name)?;
    Ok(row)
}

/// The text of the row of names. A want of memory is all that can fail where it is written to memory.
fn gather_names(
    alloc: Global,
    dims: &[Dim],
    numbers: &[usize],
    name: &[u8],
) -> Result<Vec<u8>, AllocError>
    ensures { IfOk result (λ text. text.items ≡ row_line (names_row dims.now numbers.now name.now)) }
{
    let row = name_record(alloc, dims, numbers, name)?;
    let mut w = Writer::from_writer(Vec::new(alloc));
    if w.write_byte_record(&row).is_err() {
        return Err(AllocError);
    }
    match w.into_inner() {
        Ok(text) => Ok(text),
        Err(_) => Err(AllocError),
    }
}

/// Sends the row of the names of these dimensions and one more. It is made in memory.
fn send_row<W: Sink>(
    alloc: Global,
    dims: &[Dim],
    numbers: &[usize],
    name: &[u8],
    sink: &mut W,
) -> Result<(), SendError>
    ensures sent { SendsAll (W.put sink.old) (W.put sink.new)
        (row_line (names_row dims.now numbers.now name.now)) result }
    ensures count { Blames (W.failures sink.old) (W.failures sink.new) result }
{
    let mut page = gather_names(alloc, dims, numbers, name)?;
    send_page(&mut page, sink)
}

/// Sends the row of the names of a variable's dimensions, and of its own. It is made in memory. After an `Err` a
/// front of it is sent.
pub fn send_names<W: Sink>(
    alloc: Global,
    dims: &[Dim],
    var: &Var,
    sink: &mut W,
) -> Result<(), SendError>
    ensures sent { SendsAll (W.put sink.old) (W.put sink.new) (names_text dims.now var.now) result }
    ensures count { Blames (W.failures sink.old) (W.failures sink.new) result }
{
    send_row(alloc, dims, var.dims.as_slice(), var.name.as_slice(), sink)
}

/// The same of a variable with texts along its last dimension, which isn't named.
pub fn send_text_names<W: Sink>(
    alloc: Global,
    dims: &[Dim],
    var: &Var,
    sink: &mut W,
) -> Result<(), SendError>
    ensures sent { SendsAll (W.put sink.old) (W.put sink.new) (text_names dims.now var.now) result }
    ensures count { Blames (W.failures sink.old) (W.failures sink.new) result }
{
    let numbers = var.dims.as_slice();
    let leading = numbers.split_at(numbers.len().saturating_sub(1)).0;
    send_row(alloc, dims, leading, var.name.as_slice(), sink)
}
