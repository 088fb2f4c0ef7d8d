//! A schema by a caller's rows, whose names and values stand in a text.

ghost use Rattle.std.specs.Prelude.{◌≡◌, ◌↔◌, ◌+◌, ◌*◌, ◌<◌, ◌≤◌, ◌^◌, length, map, IfOk, IsTrue, MatchOption};
ghost use Rattle.std.specs.List.{AllByRecursion};
ghost use Rattle.ncc_c.specs.Describing.{AttrFits, DimFits, IsIn, IsType, RowsFit, VarFits, attr_by, attrs_by, dim_by, ids_by, schema_by, slice, type_by, var_by, vars_by};

use crate::rows::{AttrRow, DimRow, VarRow};
use crate::selecting::type_at;
use ncc_schema::{Attr, Count, Dim, Schema, Var};
use ncc_values::{Name, Seq, Values, Version, XType};
use std::alloc::{AllocError, Global};

/// Do so many bytes stand there?
fn is_in(text: &[u8], at: u64, count: u64) -> bool
    ensures { IsTrue result ↔ IsIn text.now at count }
{
    match at.checked_add(count) {
        Some(end) => end <= text.len() as u64,
        None => false,
    }
}

/// Do the names of the dimensions stand there?
fn dims_fit(text: &[u8], rows: &[DimRow]) -> bool
    ensures { IsTrue result ↔ AllByRecursion (DimFits text.now) rows.now }
{
    for row in rows {
        if !is_in(text, row.name_at, row.name_length) {
            return false;
        }
    }
    true
}

/// Do the values of an attribute stand there, each of so many bytes?
fn values_fit(text: &[u8], row: &AttrRow, size: u64) -> bool
    ensures { IsTrue result ↔ IsIn text.now row.now.values_at (row.now.count * size) }
{
    match row.count.checked_mul(size) {
        Some(bytes) => is_in(text, row.values_at, bytes),
        None => false,
    }
}

/// Do the name and the values of an attribute stand there?
fn attr_fits(text: &[u8], row: &AttrRow) -> bool
    ensures { IsTrue result ↔ AttrFits text.now row.now }
{
    match type_at(row.xtype) {
        Some(xtype) => {
            is_in(text, row.name_at, row.name_length) && values_fit(text, row, xtype.size() as u64)
        }
        None => false,
    }
}

/// Do the names and values of the attributes stand there?
fn attrs_fit(text: &[u8], rows: &[AttrRow]) -> bool
    ensures { IsTrue result ↔ AllByRecursion (AttrFits text.now) rows.now }
{
    for row in rows {
        if !attr_fits(text, row) {
            return false;
        }
    }
    true
}

/// Has a variable a type, and does its name stand there?
fn var_fits(text: &[u8], row: &VarRow) -> bool
    ensures { IsTrue result ↔ VarFits text.now row.now }
{
    match type_at(row.xtype) {
        Some(_) => is_in(text, row.name_at, row.name_length),
        None => false,
    }
}

/// Have the variables types, and do their names stand there?
fn vars_fit(text: &[u8], rows: &[VarRow]) -> bool
    ensures { IsTrue result ↔ AllByRecursion (VarFits text.now) rows.now }
{
    for row in rows {
        if !var_fits(text, row) {
            return false;
        }
    }
    true
}

/// How many of the attributes no variable takes, where there are enough.
fn globals_of(attrs: u64, rows: &[VarRow]) -> Option<u64>
    ensures { MatchOption result (attrs < attrs_by rows.now) (λ n. n + attrs_by rows.now ≡ attrs) }
{
    let mut left = attrs;
    for row in rows {
        left = left.checked_sub(row.attrs)?;
    }
    Some(left)
}

/// How many of the numbers of dimensions no variable takes, where there are enough.
fn ids_left(ids: u64, rows: &[VarRow]) -> Option<u64>
    ensures { MatchOption result (ids < ids_by rows.now) (λ n. n + ids_by rows.now ≡ ids) }
{
    let mut left = ids;
    for row in rows {
        left = left.checked_sub(row.rank)?;
    }
    Some(left)
}

/// Does all that the rows point to stand there, and are the rows as many as the variables say?
pub fn rows_fit(
    text: &[u8],
    dims: &[DimRow],
    attrs: &[AttrRow],
    vars: &[VarRow],
    ids: &[u64],
) -> bool
    ensures { IsTrue result ↔ RowsFit text.now dims.now attrs.now vars.now ids.now }
{
    dims_fit(text, dims)
        && attrs_fit(text, attrs)
        && vars_fit(text, vars)
        && globals_of(attrs.len() as u64, vars).is_some()
        && ids_left(ids.len() as u64, vars) == Some(0)
}

/// The bytes that stand there.
fn slice(text: &[u8], at: u64, count: u64) -> &[u8]
    requires { IsIn text.now at count }
    ensures { result.now ≡ slice text.now at count }
{
    &text[at as usize..][..count as usize]
}

fn name_by(alloc: Global, text: &[u8], at: u64, length: u64) -> Result<Name, AllocError>
    requires { IsIn text.now at length }
    ensures { IfOk result (λ name. name ≡ slice text.now at length) }
{
    Name::from_slice(alloc, slice(text, at, length))
}

/// The dimension of a row.
fn dim_by(alloc: Global, text: &[u8], row: &DimRow) -> Result<Dim, AllocError>
    requires { DimFits text.now row.now }
    ensures { IfOk result (λ d. d ≡ dim_by text.now row.now) }
{
    Ok(Dim {
        name: name_by(alloc, text, row.name_at, row.name_length)?,
        length: row.length,
    })
}

/// The dimensions of rows.
fn dims_by(alloc: Global, text: &[u8], rows: &[DimRow]) -> Result<Vec<Dim>, AllocError>
    requires { AllByRecursion (DimFits text.now) rows.now }
    ensures { IfOk result (λ items. items.items ≡ map (dim_by text.now) rows.now) }
{
    let mut items = Vec::new(alloc);
    for k in 0..rows.len() {
        items.push(dim_by(alloc, text, &rows[k])?)?;
    }
    Ok(items)
}

/// The type with a code that stands for one.
fn type_by(code: u64) -> XType
    requires { IsType code }
    ensures { result ≡ type_by code }
{
    match type_at(code) {
        Some(xtype) => xtype,
        None => unreachable!(),
    }
}

/// The attribute of a row.
fn attr_by(alloc: Global, text: &[u8], row: &AttrRow) -> Result<Attr, AllocError>
    requires { AttrFits text.now row.now }
    ensures { IfOk result (λ a. a ≡ attr_by text.now row.now) }
{
    let xtype = type_by(row.xtype);
    let size = row.count * xtype.size() as u64;
    Ok(Attr {
        name: name_by(alloc, text, row.name_at, row.name_length)?,
        values: Values::of_bytes(alloc, xtype, slice(text, row.values_at, size))?,
    })
}

/// The attributes of rows.
fn attrs_of(alloc: Global, text: &[u8], rows: &[AttrRow]) -> Result<Vec<Attr>, AllocError>
    requires { AllByRecursion (AttrFits text.now) rows.now }
    ensures { IfOk result (λ items. items.items ≡ map (attr_by text.now) rows.now) }
{
    let mut items = Vec::new(alloc);
    for k in 0..rows.len() {
        items.push(attr_by(alloc, text, &rows[k])?)?;
    }
    Ok(items)
}

/// The same numbers, as those of dimensions.
fn numbers_of(alloc: Global, ids: &[u64]) -> Result<Vec<usize>, AllocError>
    ensures { IfOk result (λ items. items.items ≡ ids.now) }
{
    let mut items = Vec::new(alloc);
    for k in 0..ids.len() {
        items.push(ids[k] as usize)?;
    }
    Ok(items)
}

/// The variable of a row, with these attributes and dimensions.
fn var_by(
    alloc: Global,
    text: &[u8],
    row: &VarRow,
    attrs: &[AttrRow],
    ids: &[u64],
) -> Result<Var, AllocError>
    requires row { VarFits text.now row.now }
    requires attrs { AllByRecursion (AttrFits text.now) attrs.now }
    ensures { IfOk result (λ x. x ≡ var_by text.now row.now attrs.now ids.now) }
{
    Ok(Var {
        name: name_by(alloc, text, row.name_at, row.name_length)?,
        dims: Seq::from_vec(numbers_of(alloc, ids)?),
        attrs: Seq::from_vec(attrs_of(alloc, text, attrs)?),
        xtype: type_by(row.xtype),
    })
}

/// The variables of rows, each with the next attributes and the next numbers of dimensions.
fn vars_by(
    alloc: Global,
    text: &[u8],
    attrs: &[AttrRow],
    ids: &[u64],
    rows: &[VarRow],
) -> Result<Vec<Var>, AllocError>
    requires rows { AllByRecursion (VarFits text.now) rows.now }
    requires attrs { AllByRecursion (AttrFits text.now) attrs.now }
    requires all { attrs_by rows.now ≡ length attrs.now }
    requires all_ids { ids_by rows.now ≡ length ids.now }
    ensures { IfOk result (λ items. items.items ≡ vars_by text.now attrs.now ids.now rows.now) }
{
    let mut items = Vec::new(alloc);
    let mut attrs_left = attrs;
    let mut ids_left = ids;
    for k in 0..rows.len() {
        let row = &rows[k];
        let (own, others) = attrs_left.split_at(row.attrs as usize);
        let (own_ids, other_ids) = ids_left.split_at(row.rank as usize);
        items.push(var_by(alloc, text, row, own, own_ids)?)?;
        attrs_left = others;
        ids_left = other_ids;
    }
    Ok(items)
}

/// The schema of rows that fit, without records.
pub fn schema_by(
    alloc: Global,
    version: Version,
    text: &[u8],
    dims: &[DimRow],
    attrs: &[AttrRow],
    vars: &[VarRow],
    ids: &[u64],
) -> Result<Schema, AllocError>
    requires { RowsFit text.now dims.now attrs.now vars.now ids.now }
    ensures { IfOk result (λ s. s ≡ schema_by version text.now dims.now attrs.now vars.now ids.now) }
{
    let globals = match globals_of(attrs.len() as u64, vars) {
        Some(globals) => globals,
        None => unreachable!(),
    };
    let (own, others) = attrs.split_at(globals as usize);
    Ok(Schema {
        version,
        count: Count::Known(0),
        dims: Seq::from_vec(dims_by(alloc, text, dims)?),
        gatts: Seq::from_vec(attrs_of(alloc, text, own)?),
        vars: Seq::from_vec(vars_by(alloc, text, others, ids, vars)?),
    })
}
