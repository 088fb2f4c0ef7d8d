//! Sending a selection of an open file.

ghost use Rattle.std.specs.Prelude.{◌≡◌, ◌≢◌, ℕ, ◌+◌, ◌^◌, ◌<◌, ◌≤◌, List, [], length, get_or, Option, Some, None, is_none, Err, IsTrue, IfOk, true, ◌&&◌};
ghost use Rattle.ncc_values.specs.XType.{size_of};
ghost use Rattle.ncc_layout.specs.Elements.{var_at};
ghost use Rattle.ncc_layout.specs.Placed.{file_length_of, record_size_of_file, vars_of};
ghost use Rattle.ncc_layout.specs.Sizes.{product};
ghost use Rattle.ncc_check.specs.Files.{ReadsFile, store_of, schema_of, placed_of};
ghost use Rattle.ncc_lines.specs.Sends.{SendsAll};
ghost use Rattle.ncc_slab.specs.Refusals.{slab_fault};
ghost use Rattle.ncc_slab.specs.Selected.{places_of};
ghost use Rattle.ncc_slab.specs.SlabParts.{BeginsParts};
ghost use Rattle.ncc_slab.specs.Stretches.{all_stretches};
ghost use Rattle.ncc_slab.specs.declared.fault.SlabFault.{SlabFault as Fault};
ghost use Rattle.ncc_slab.specs.declared.slab.Slab.{Slab};
ghost use Rattle.ncc_csv.specs.Csv.{csv_text};
ghost use Rattle.ncc_csv.specs.Named.{no_var};
ghost use Rattle.ncc_csv.specs.Sheets.{BlamesOne, BlamesEither, IsCause, SendsSheet, sheet_text};
ghost use Rattle.ncc_csv.specs.Texts.{but_last, has_texts, text_sheet};

use crate::laws::fitting_has_indices;
use crate::names::{send_names, send_text_names};
use crate::parts::send_rows;
use crate::refusals::send_refusal;
use crate::text_parts::send_texts;
use ncc_check::NcFile;
use ncc_check::laws::{open_file_places_all, open_file_stands};
use ncc_header::{Schema, Sink, Var, XType};
use ncc_layout::Placed;
use ncc_layout::laws::shape_is_in_file;
use ncc_lines::{FloatStyle, Progress, SendError};
use ncc_slab::laws::{lengths_fit, refused_unless_it_fits};
use ncc_slab::{Slab, SlabFault, SlabParts};
use ncc_store::Store;
use std::alloc::Global;

/// Sends the line of a selection that is refused, unless memory for it was.
fn refuse<W: Sink>(fault: SlabFault, sink: &mut W) -> Result<bool, SendError>
    requires { (cause : Option Fault) × IsCause cause fault }
    ensures sent { (cause : Option Fault) (sheet : List ℕ) → IsCause cause fault
        → SendsSheet cause (W.put sink.old) (W.put sink.new) sheet result }
    ensures answer { (cause : Option Fault) → IsCause cause fault → IfOk result (λ b. b ≡ is_none cause) }
    ensures count { BlamesOne (W.failures sink.old) (W.failures sink.new) result }
    ensures memory { result ≡ Err SendError.Memory → (fault ≡ SlabFault.Memory) × (sink.new ≡ sink.old) }
{
    match fault {
        SlabFault::Memory => Err(SendError::Memory),
        _ => {
            send_refusal(fault, sink)?;
            Ok(false)
        }
    }
}

/// A variable by its number.
fn var_of(schema: &Schema, var: usize) -> &Var
    requires { var < length schema.now.vars }
    ensures { result.now ≡ get_or schema.now.vars var no_var }
{
    &schema.vars.as_slice()[var]
}

/// The texts of a selection that isn't refused, whatever its last count, are fewer than 2^64.
fn texts_are_counted<S: Store>(file: &NcFile<S>)
    ensures { (var : ℕ) (s : Slab) → slab_fault (vars_of (placed_of file.now)) var s ≡ None
        → product (but_last s.count) < 2 ^ 64 }
{
    open_file_stands(file);
    shape_is_in_file();
    refused_unless_it_fits();
    let _length = file.placed().file_length();
}

/// Sends the row of names and a row for each element of a selection that isn't refused. After an `Err` a front of
/// them is sent.
fn send_selected<S: Store, W: Sink, P: Progress>(
    alloc: Global,
    file: &mut NcFile<S>,
    var: usize,
    slab: &Slab,
    parts: &mut SlabParts,
    style: FloatStyle,
    sink: &mut W,
    progress: &mut P,
) -> Result<(), SendError>
    requires selected { slab_fault (vars_of (placed_of file.old)) var slab.now ≡ None }
    requires begins { BeginsParts (placed_of file.old) var slab.now parts.old }
    ensures sent { IsTrue S.tells_bytes → SendsAll (W.put sink.old) (W.put sink.new)
        (csv_text style (schema_of file.old).dims (get_or (schema_of file.old).vars var no_var)
        (S.bytes (store_of file.old)) (record_size_of_file (placed_of file.old))
        (var_at (vars_of (placed_of file.old)) var) slab.now) result }
    ensures file { ReadsFile file.old file.new
        (λ a b. BlamesEither a b (W.failures sink.old) (W.failures sink.new) result) true
        (all_stretches (size_of (var_at (vars_of (placed_of file.old)) var).xtype) (places_of
        (record_size_of_file (placed_of file.old)) (var_at (vars_of (placed_of file.old)) var) slab.now))
        (file_length_of (placed_of file.old)) }
{
    open_file_places_all(file);
    lengths_fit(file.placed(), var);
    refused_unless_it_fits();
    fitting_has_indices();
    let schema = file.schema();
    send_names(alloc, schema.dims.as_slice(), var_of(schema, var), sink)?;
    send_rows(alloc, file, slab, parts, style, sink, progress)
}

/// Sends the row of names and a row for each text of a selection that isn't refused. After an `Err` a front of them is
/// sent.
fn send_selected_texts<S: Store, W: Sink, P: Progress>(
    alloc: Global,
    file: &mut NcFile<S>,
    var: usize,
    slab: &Slab,
    parts: &mut SlabParts,
    sink: &mut W,
    progress: &mut P,
) -> Result<(), SendError>
    requires selected { slab_fault (vars_of (placed_of file.old)) var slab.now ≡ None }
    requires begins { BeginsParts (placed_of file.old) var slab.now parts.old }
    requires texts { has_texts (var_at (vars_of (placed_of file.old)) var).xtype
        (var_at (vars_of (placed_of file.old)) var).shape ≡ true }
    ensures sent { IsTrue S.tells_bytes → SendsAll (W.put sink.old) (W.put sink.new)
        (text_sheet (schema_of file.old).dims (get_or (schema_of file.old).vars var no_var)
        (S.bytes (store_of file.old)) (record_size_of_file (placed_of file.old))
        (var_at (vars_of (placed_of file.old)) var) slab.now) result }
    ensures file { ReadsFile file.old file.new
        (λ a b. BlamesEither a b (W.failures sink.old) (W.failures sink.new) result) true
        (all_stretches (size_of (var_at (vars_of (placed_of file.old)) var).xtype) (places_of
        (record_size_of_file (placed_of file.old)) (var_at (vars_of (placed_of file.old)) var) slab.now))
        (file_length_of (placed_of file.old)) }
{
    open_file_places_all(file);
    texts_are_counted(file);
    lengths_fit(file.placed(), var);
    refused_unless_it_fits();
    fitting_has_indices();
    let schema = file.schema();
    send_text_names(alloc, schema.dims.as_slice(), var_of(schema, var), sink)?;
    send_texts(alloc, file, slab, parts, sink, progress)
}

/// Are texts printed of a variable?
fn prints_texts(texts: bool, placed: &Placed, var: usize) -> bool
    requires { var < length (vars_of placed.now) }
    ensures { result ≡ (texts && has_texts (var_at (vars_of placed.now) var).xtype
        (var_at (vars_of placed.now) var).shape) }
{
    texts && placed.xtype(var) == XType::Char && !placed.shape(var).is_empty()
}

/// Sends the row of names and the rows of a selection that isn't refused. After an `Err` a front of them is sent.
fn send_printed<S: Store, W: Sink, P: Progress>(
    alloc: Global,
    file: &mut NcFile<S>,
    var: usize,
    slab: &Slab,
    parts: &mut SlabParts,
    style: FloatStyle,
    texts: bool,
    sink: &mut W,
    progress: &mut P,
) -> Result<(), SendError>
    requires selected { slab_fault (vars_of (placed_of file.old)) var slab.now ≡ None }
    requires begins { BeginsParts (placed_of file.old) var slab.now parts.old }
    ensures sent { IsTrue S.tells_bytes → SendsAll (W.put sink.old) (W.put sink.new)
        (sheet_text style texts (S.bytes (store_of file.old)) (schema_of file.old) (placed_of file.old) var slab.now)
        result }
    ensures file { ReadsFile file.old file.new
        (λ a b. BlamesEither a b (W.failures sink.old) (W.failures sink.new) result) true
        (all_stretches (size_of (var_at (vars_of (placed_of file.old)) var).xtype) (places_of
        (record_size_of_file (placed_of file.old)) (var_at (vars_of (placed_of file.old)) var) slab.now))
        (file_length_of (placed_of file.old)) }
{
    if prints_texts(texts, file.placed(), var) {
        return send_selected_texts(alloc, file, var, slab, parts, sink, progress);
    }
    send_selected(alloc, file, var, slab, parts, style, sink, progress)
}

/// Sends the row of names and the rows of a selection of the variable with this number, or the line of the
/// selection's refusal, and tells whether it was selected. Floats are in this style. With `texts` the last dimension
/// of a char variable that has one is one field. Memory doesn't grow with the selection but for one text.
pub fn send_sheet<S: Store, W: Sink, P: Progress>(
    alloc: Global,
    file: &mut NcFile<S>,
    var: usize,
    slab: &Slab,
    style: FloatStyle,
    texts: bool,
    sink: &mut W,
    progress: &mut P,
) -> Result<bool, SendError>
    ensures sent { IsTrue S.tells_bytes → SendsSheet (slab_fault (vars_of (placed_of file.old)) var slab.now)
        (W.put sink.old) (W.put sink.new)
        (sheet_text style texts (S.bytes (store_of file.old)) (schema_of file.old) (placed_of file.old) var slab.now)
        result }
    ensures answer { IfOk result (λ b. b ≡ is_none (slab_fault (vars_of (placed_of file.old)) var slab.now)) }
    ensures file { ReadsFile file.old file.new
        (λ a b. BlamesEither a b (W.failures sink.old) (W.failures sink.new) result) true
        (all_stretches (size_of (var_at (vars_of (placed_of file.old)) var).xtype) (places_of
        (record_size_of_file (placed_of file.old)) (var_at (vars_of (placed_of file.old)) var) slab.now))
        (file_length_of (placed_of file.old)) }
    ensures refused { (fault : Fault) → slab_fault (vars_of (placed_of file.old)) var slab.now ≡ Some fault
        → SendsSheet (Some fault) (W.put sink.old) (W.put sink.new) [] result
        × (store_of file.new ≡ store_of file.old) × (result ≢ Err SendError.Memory) }
{
    let mut parts = match SlabParts::new(alloc, file.placed(), var, slab) {
        Ok(parts) => parts,
        Err(fault) => return refuse(fault, sink),
    };
    send_printed(
        alloc, file, var, slab, &mut parts, style, texts, sink, progress,
    )?;
    Ok(true)
}
