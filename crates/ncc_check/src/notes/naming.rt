//! The notes on the names of each list, and on the lengths of dimensions.

ghost use Rattle.std.specs.Prelude.{◌≡◌, ◌⊎◌, OnOk, length};
ghost use Rattle.ncc_schema.specs.Names.{canon_unplaced, capped};
ghost use Rattle.ncc_check.specs.Noting.{Adds, AttrNotesAt, Below, DimNotes, GlobalNotes, VarAttrNotes, VarNotes, offsets_from, var_offsets};

use crate::note::Note;
use crate::notes::counting::note_large_lengths;
use crate::notes::names::note_names;
use ncc_header::{Schema, Var, Version};
use ncc_schema::{attrs_in, gatts_at, list_size, var_size, vars_start};
use std::alloc::{AllocError, Global};

/// The notes on the dimensions.
pub fn note_dims(alloc: Global, schema: &Schema, notes: &mut Vec<Note>) -> Result<(), AllocError>
    ensures { OnOk result (Adds (DimNotes schema.now) notes.old.items notes.new.items) }
{
    let version = schema.version;
    let dims = schema.dims.as_slice();
    let start = 2 * list_size(version);
    note_names(alloc, version, dims, start, notes)?;
    note_large_lengths(version, dims, start, notes)?;
    Ok(())
}

/// The notes on the names of the file's attributes.
pub fn note_globals(alloc: Global, schema: &Schema, notes: &mut Vec<Note>) -> Result<(), AllocError>
    ensures { OnOk result (Adds (GlobalNotes schema.now) notes.old.items notes.new.items) }
{
    let version = schema.version;
    let start = gatts_at(schema).saturating_add(list_size(version));
    note_names(alloc, version, schema.gatts.as_slice(), start, notes)?;
    Ok(())
}

/// The notes on the names of a variable's attributes.
fn note_var_attrs(
    alloc: Global,
    version: Version,
    var: &Var,
    at: u64,
    notes: &mut Vec<Note>,
) -> Result<(), AllocError>
    ensures { OnOk result (Adds (VarAttrNotes version at var.now) notes.old.items notes.new.items) }
{
    let start = at.saturating_add(attrs_in(version, var));
    note_names(alloc, version, var.attrs.as_slice(), start, notes)?;
    Ok(())
}

/// The notes on the names of the attributes of all variables. The first variable is at this offset.
fn note_attrs_of_vars(
    alloc: Global,
    version: Version,
    vars: &[Var],
    start: u64,
    notes: &mut Vec<Note>,
) -> Result<(), AllocError>
    ensures { OnOk result (Adds
        (Below (AttrNotesAt version vars.now (offsets_from (canon_unplaced version) start vars.now)) (length vars.now))
        notes.old.items notes.new.items) }
{
    let mut at = start;
    for var in vars {
        note_var_attrs(alloc, version, var, at, notes)?;
        at = at.saturating_add(var_size(version, var));
    }
    Ok(())
}

/// The notes on the names of variables and of their attributes.
pub fn note_vars(alloc: Global, schema: &Schema, notes: &mut Vec<Note>) -> Result<(), AllocError>
    ensures { OnOk result (Adds
        (λ n. VarNotes schema.now n
        ⊎ Below (AttrNotesAt schema.now.version schema.now.vars (var_offsets schema.now)) (length schema.now.vars) n)
        notes.old.items notes.new.items) }
{
    let version = schema.version;
    let vars = schema.vars.as_slice();
    let start = vars_start(schema);
    note_names(alloc, version, vars, start, notes)?;
    note_attrs_of_vars(alloc, version, vars, start, notes)?;
    Ok(())
}
