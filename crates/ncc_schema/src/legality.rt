//! Which schemas and placements a header can hold.

ghost use Rattle.std.specs.Prelude.{◌≤◌, ◌↔◌, IsTrue};
ghost use Rattle.std.specs.List.{AllByRecursion};
ghost use Rattle.ncc_schema.specs.Schema.{record_dims, place_of, places_of, IsFixed, IsTypeOf, LegalName, LegalDim, LegalAttr, LegalDims, LegalVar, LegalCount, Sound, LegalPlace, Legal};

use crate::limits::{
    greatest_vsize, limit_of_counts, limit_of_lengths, limit_of_offsets, streaming_mark,
};
use crate::schema::{Attr, Count, Dim, Schema, Var, VarPlace};
use ncc_values::{Version, XType};

fn is_count(version: Version, count: Count) -> bool
    ensures { IsTrue result ↔ LegalCount version count }
{
    match count {
        Count::Known(n) => n < streaming_mark(version),
        Count::Streaming => true,
    }
}

fn is_name(version: Version, name: &[u8]) -> bool
    ensures { IsTrue result ↔ LegalName version name.now }
{
    (name.len() as u64) < limit_of_counts(version)
}

fn is_dim(version: Version, dim: &Dim) -> bool
    ensures { IsTrue result ↔ LegalDim version dim.now }
{
    is_name(version, dim.name.as_slice()) && dim.length < limit_of_lengths(version)
}

fn are_dims(version: Version, dims: &[Dim]) -> bool
    ensures { IsTrue result ↔ AllByRecursion (LegalDim version) dims.now }
{
    for dim in dims {
        if !is_dim(version, dim) {
            return false;
        }
    }
    true
}

/// Is at most one of the dimensions the record dimension?
fn has_one_record_dim(dims: &[Dim]) -> bool
    ensures { IsTrue result ↔ (record_dims dims.now ≤ 1) }
{
    let mut seen = false;
    for dim in dims {
        if dim.length == 0 {
            if seen {
                return false;
            }
            seen = true;
        }
    }
    true
}

/// Does the version have the type?
fn has_type(version: Version, xtype: XType) -> bool
    ensures { IsTrue result ↔ IsTypeOf version xtype }
{
    XType::from_code(xtype.code(), version) == Some(xtype)
}

fn is_attr(version: Version, attr: &Attr) -> bool
    ensures { IsTrue result ↔ LegalAttr version attr.now }
{
    is_name(version, attr.name.as_slice())
        && has_type(version, attr.values.xtype())
        && (attr.values.len() as u64) < limit_of_counts(version)
}

fn are_attrs(version: Version, attrs: &[Attr]) -> bool
    ensures { IsTrue result ↔ AllByRecursion (LegalAttr version) attrs.now }
{
    for attr in attrs {
        if !is_attr(version, attr) {
            return false;
        }
    }
    true
}

/// Are these the numbers of dimensions, none of them the record dimension?
fn are_fixed(dims: &[Dim], ids: &[usize]) -> bool
    ensures { IsTrue result ↔ AllByRecursion (IsFixed dims.now) ids.now }
{
    for id in ids {
        if *id >= dims.len() || dims[*id].length == 0 {
            return false;
        }
    }
    true
}

/// Are these the numbers of dimensions, the record dimension at most the first?
fn are_dimids(dims: &[Dim], ids: &[usize]) -> bool
    ensures { IsTrue result ↔ LegalDims dims.now ids.now }
{
    match ids {
        [] => true,
        [first, others @ ..] => *first < dims.len() && are_fixed(dims, others),
    }
}

fn is_var(version: Version, dims: &[Dim], var: &Var) -> bool
    ensures { IsTrue result ↔ LegalVar version dims.now var.now }
{
    is_name(version, var.name.as_slice())
        && (var.dims.len() as u64) < limit_of_counts(version)
        && are_dimids(dims, var.dims.as_slice())
        && (var.attrs.len() as u64) < limit_of_counts(version)
        && are_attrs(version, var.attrs.as_slice())
        && has_type(version, var.xtype)
}

fn are_vars(version: Version, dims: &[Dim], vars: &[Var]) -> bool
    ensures { IsTrue result ↔ AllByRecursion (LegalVar version dims.now) vars.now }
{
    for var in vars {
        if !is_var(version, dims, var) {
            return false;
        }
    }
    true
}

/// Can a header hold the schema, at some placement of its variables?
pub fn sound(schema: &Schema) -> bool
    ensures { IsTrue result ↔ Sound schema.now }
{
    let version = schema.version;
    let limit = limit_of_counts(version);
    is_count(version, schema.count)
        && (schema.dims.len() as u64) < limit
        && are_dims(version, schema.dims.as_slice())
        && has_one_record_dim(schema.dims.as_slice())
        && (schema.gatts.len() as u64) < limit
        && are_attrs(version, schema.gatts.as_slice())
        && (schema.vars.len() as u64) < limit
        && are_vars(version, schema.dims.as_slice(), schema.vars.as_slice())
}

fn is_place(version: Version, place: &VarPlace) -> bool
    ensures { IsTrue result ↔ LegalPlace version (place_of place.now) }
{
    place.vsize <= greatest_vsize(version) && place.begin < limit_of_offsets(version)
}

fn are_places(version: Version, places: &[VarPlace]) -> bool
    ensures { IsTrue result ↔ AllByRecursion (LegalPlace version) (places_of places.now) }
{
    for place in places {
        if !is_place(version, place) {
            return false;
        }
    }
    true
}

/// Can a header hold the schema at this placement?
pub fn legal(schema: &Schema, places: &[VarPlace]) -> bool
    ensures { IsTrue result ↔ Legal schema.now (places_of places.now) }
{
    sound(schema) && places.len() == schema.vars.len() && are_places(schema.version, places)
}
