//! The lines of attributes and variables, but for what may be long.

ghost use Rattle.std.specs.Prelude.{◌≡◌, ◌++◌, OnOk};
ghost use Rattle.ncc_lines.specs.Texts.{owner_text, attr_start, attr_type, name_of, begin_of, kind_of, var_start, var_type};

use crate::texts::push_decimal;
use ncc_header::{Dim, Values, Var, VarPlace, is_record_var};
use std::alloc::AllocError;

/// Adds whose an attribute is: the variable's number, or the whole file.
fn push_owner(out: &mut Vec<u8>, owner: Option<usize>) -> Result<(), AllocError>
    ensures { OnOk result (out.new.items ≡ out.old.items ++ owner_text owner) }
{
    match owner {
        Some(number) => push_decimal(out, number as u64)?,
        None => out.extend_from_slice(b"global")?,
    }
    Ok(())
}

/// Adds the line of an attribute up to its name.
#[tactic(auto, unfolding(crate::specs::Texts::attr_start))]
pub fn push_attr_start(out: &mut Vec<u8>, owner: Option<usize>) -> Result<(), AllocError>
    ensures { OnOk result (out.new.items ≡ out.old.items ++ attr_start owner) }
{
    out.extend_from_slice(b"attribute ")?;
    push_owner(out, owner)?;
    out.extend_from_slice(b" ")?;
    Ok(())
}

/// Adds the line of an attribute after its name up to its values.
#[tactic(auto, unfolding(crate::specs::Texts::attr_type))]
pub fn push_attr_type(out: &mut Vec<u8>, values: &Values) -> Result<(), AllocError>
    ensures { OnOk result (out.new.items ≡ out.old.items ++ attr_type values.now) }
{
    out.extend_from_slice(b" ")?;
    out.extend_from_slice(values.xtype().word().as_bytes())?;
    out.extend_from_slice(b" ")?;
    push_decimal(out, values.len() as u64)
}

/// The name of a dimension, by its number.
pub fn dim_name(dims: &[Dim], number: usize) -> &[u8]
    ensures { result.now ≡ name_of dims.now number }
{
    if number < dims.len() {
        dims[number].name.as_slice()
    } else {
        &[]
    }
}

/// Where a variable begins, by its number.
pub fn offset_of(places: &[VarPlace], number: usize) -> u64
    ensures { result ≡ begin_of places.now number }
{
    if number < places.len() {
        places[number].begin
    } else {
        0
    }
}

/// The word for the kind of a variable.
fn var_kind(dims: &[Dim], var: &Var) -> &'static str
    ensures { result.now ≡ kind_of dims.now var.now }
{
    if is_record_var(dims, var) {
        "record"
    } else {
        "fixed"
    }
}

/// Adds the line of a variable up to its name.
#[tactic(auto, unfolding(crate::specs::Texts::var_start))]
pub fn push_var_start(out: &mut Vec<u8>, number: usize) -> Result<(), AllocError>
    ensures { OnOk result (out.new.items ≡ out.old.items ++ var_start number) }
{
    out.extend_from_slice(b"variable ")?;
    push_decimal(out, number as u64)?;
    out.extend_from_slice(b" ")?;
    Ok(())
}

/// Adds the line of a variable after its name up to the names of its dimensions.
#[tactic(auto, unfolding(crate::specs::Texts::var_type))]
pub fn push_var_type(
    out: &mut Vec<u8>,
    dims: &[Dim],
    begin: u64,
    var: &Var,
) -> Result<(), AllocError>
    ensures { OnOk result (out.new.items ≡ out.old.items ++ var_type dims.now begin var.now) }
{
    out.extend_from_slice(b" ")?;
    out.extend_from_slice(var.xtype.word().as_bytes())?;
    out.extend_from_slice(b" ")?;
    out.extend_from_slice(var_kind(dims, var).as_bytes())?;
    out.extend_from_slice(b" begin ")?;
    push_decimal(out, begin)?;
    out.extend_from_slice(b" dims ")?;
    push_decimal(out, var.dims.len() as u64)
}
