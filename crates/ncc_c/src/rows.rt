//! What a header says, as rows of numbers: where its names and values stand in the file's own bytes, and the rest.

ghost use Rattle.std.specs.Prelude.{◌≡◌, ◌+◌, ◌<◌, ◌^◌, length};
ghost use Rattle.std.specs.List.{flat_map};
ghost use Rattle.ncc_schema.specs.Header.{canon_attr, canon_dim};
ghost use Rattle.ncc_schema.specs.Names.{canon_unplaced};
ghost use Rattle.ncc_c.specs.Rows.{attr_count, attr_row, attr_rows, attrs_of_vars, dim_row, dim_rows, id_count, ids_of_vars, var_row, var_rows};

use ncc_header::{Attr, Dim, Var, Version};
use ncc_layout::PlacedVar;
use ncc_schema::{attr_size, attrs_in, dim_size, name_size};

/// A dimension: where its name stands, and its length.
#[repr(C)]
#[derive(Clone, Copy, Debug, PartialEq, Eq)]
pub struct DimRow {
    pub name_at: u64,
    pub name_length: u64,
    pub length: u64,
}

/// An attribute: where its name stands, its type, the number of its values, and where they stand.
#[repr(C)]
#[derive(Clone, Copy, Debug, PartialEq, Eq)]
pub struct AttrRow {
    pub name_at: u64,
    pub name_length: u64,
    pub xtype: u64,
    pub count: u64,
    pub values_at: u64,
}

/// A variable: where its name stands, its type, where it begins and what it has in one record, how many dimensions and
/// attributes it has, and whether the first dimension is the record dimension.
#[repr(C)]
#[derive(Clone, Copy, Debug, PartialEq, Eq)]
pub struct VarRow {
    pub name_at: u64,
    pub name_length: u64,
    pub xtype: u64,
    pub begin: u64,
    pub slab: u64,
    pub rank: u64,
    pub attrs: u64,
    pub is_record: u64,
}

/// The row of a dimension that stands there.
fn dim_row(version: Version, at: u64, dim: &Dim) -> DimRow
    requires { at + length (canon_dim version dim.now) < 2 ^ 64 }
    ensures { result ≡ dim_row version at dim.now }
{
    DimRow {
        name_at: at + version.count_width() as u64,
        name_length: dim.name.len() as u64,
        length: dim.length,
    }
}

/// The row of an attribute that stands there.
fn attr_row(version: Version, at: u64, attr: &Attr) -> AttrRow
    requires { at + length (canon_attr version attr.now) < 2 ^ 64 }
    ensures { result ≡ attr_row version at attr.now }
{
    let width = version.count_width() as u64;
    let name = attr.name.as_slice();
    AttrRow {
        name_at: at + width,
        name_length: name.len() as u64,
        xtype: attr.values.xtype().code() as u64,
        count: attr.values.len() as u64,
        values_at: at + name_size(version, name) + (4 + width),
    }
}

/// The row of a variable that stands there.
fn var_row(version: Version, at: u64, var: &Var, placed: &PlacedVar) -> VarRow
    requires { at + length (canon_unplaced version var.now) < 2 ^ 64 }
    ensures { result ≡ var_row version at var.now placed.now }
{
    VarRow {
        name_at: at + version.count_width() as u64,
        name_length: var.name.len() as u64,
        xtype: var.xtype.code() as u64,
        begin: placed.extent.begin,
        slab: placed.extent.slab,
        rank: var.dims.len() as u64,
        attrs: var.attrs.len() as u64,
        is_record: placed.extent.is_record as u64,
    }
}

/// Puts the rows of dimensions, of which the first stands at `start`.
pub fn put_dims(version: Version, start: u64, dims: &[Dim], rows: &mut [DimRow])
    requires room { length rows.old ≡ length dims.now }
    requires fits { start + length (flat_map (canon_dim version) dims.now) < 2 ^ 64 }
    ensures { rows.new ≡ dim_rows version start dims.now }
{
    let mut at = start;
    for k in 0..dims.len() {
        rows[k] = dim_row(version, at, &dims[k]);
        at += dim_size(version, &dims[k]);
    }
}

/// Puts the rows of attributes, of which the first stands at `start`, and tells where the last one ends.
pub fn put_attrs(version: Version, start: u64, attrs: &[Attr], rows: &mut [AttrRow]) -> u64
    requires room { length rows.old ≡ length attrs.now }
    requires fits { start + length (flat_map (canon_attr version) attrs.now) < 2 ^ 64 }
    ensures rows { rows.new ≡ attr_rows version start attrs.now }
    ensures end { result ≡ start + length (flat_map (canon_attr version) attrs.now) }
{
    let mut at = start;
    for k in 0..attrs.len() {
        rows[k] = attr_row(version, at, &attrs[k]);
        at += attr_size(version, &attrs[k]);
    }
    at
}

/// Puts the rows of variables, of which the first stands at `start`, and those of the attributes of each.
pub fn put_vars(
    version: Version,
    start: u64,
    vars: &[Var],
    placed: &[PlacedVar],
    rows: &mut [VarRow],
    attr_rows: &mut [AttrRow],
)
    requires room { length rows.old ≡ length vars.now }
    requires placed { length placed.now ≡ length vars.now }
    requires attrs { length attr_rows.old ≡ attr_count vars.now }
    requires fits { start + length (flat_map (canon_unplaced version) vars.now) < 2 ^ 64 }
    ensures rows { rows.new ≡ var_rows version start vars.now placed.now }
    ensures attrs { attr_rows.new ≡ attrs_of_vars version start vars.now }
{
    // (the type, the size and the offset after the attributes)
    let numbers = 4 + version.count_width() as u64 + version.offset_width() as u64;
    let mut at = start;
    let mut first = 0;
    for k in 0..vars.len() {
        rows[k] = var_row(version, at, &vars[k], &placed[k]);
        let attrs = vars[k].attrs.as_slice();
        let end = first + attrs.len();
        let begin = at + attrs_in(version, &vars[k]);
        at = put_attrs(version, begin, attrs, &mut attr_rows[first..end]) + numbers;
        first = end;
    }
}

/// Puts the numbers of a variable's dimensions.
fn put_ids(ids: &[usize], out: &mut [u64])
    requires { length out.old ≡ length ids.now }
    ensures { out.new ≡ ids.now }
{
    for k in 0..ids.len() {
        out[k] = ids[k] as u64;
    }
}

/// Puts the numbers of the dimensions of each variable.
pub fn put_ids_of_vars(vars: &[Var], out: &mut [u64])
    requires { length out.old ≡ id_count vars.now }
    ensures { out.new ≡ ids_of_vars vars.now }
{
    let mut first = 0;
    for k in 0..vars.len() {
        let ids = vars[k].dims.as_slice();
        let end = first + ids.len();
        put_ids(ids, &mut out[first..end]);
        first = end;
    }
}

/// How many attributes the variables have together.
pub fn count_attrs(vars: &[Var]) -> u64
    requires { attr_count vars.now < 2 ^ 64 }
    ensures { result ≡ attr_count vars.now }
{
    let mut count = 0;
    for k in 0..vars.len() {
        count += vars[k].attrs.len() as u64;
    }
    count
}

/// How many dimensions the variables have together.
pub fn count_ids(vars: &[Var]) -> u64
    requires { id_count vars.now < 2 ^ 64 }
    ensures { result ≡ id_count vars.now }
{
    let mut count = 0;
    for k in 0..vars.len() {
        count += vars[k].dims.len() as u64;
    }
    count
}
