//! The members of a header's object.

ghost use Rattle.std.specs.Prelude.{◌≡◌, ◌++◌, OnOk, map};
ghost use Rattle.std.specs.List.{flat_map};
ghost use Rattle.ncc_listed.specs.Members.{count_member, dim_numbers_member, dim_object, dims_member, head_members, length_member, mark_member, place_at, place_members, unlimited_member, var_object, var_objects, vars_member, version_member};
ghost use Rattle.ncc_listed.specs.Values.{unsigned_token};

use crate::attributes::{put_attrs, put_type};
use json::Writer;
use ncc_header::{Count, Dim, Header, Var, VarPlace};
use ncc_json::{put_bytes_member, put_list, put_number, put_text};
use ncc_lines::FloatStyle;
use ncc_values::Version;
use std::alloc::{AllocError, Global};

/// Adds the number of records.
fn put_count(out: &mut Writer, count: Count) -> Result<(), AllocError>
    ensures tokens { OnOk result (out.new.tokens ≡ out.old.tokens ++ count_member count) }
    ensures before { out.new.before ≡ out.old.before }
{
    match count {
        Count::Known(n) => put_number(out, "numrecs", n),
        Count::Streaming => put_text(out, "numrecs", "streaming"),
    }
}

/// Adds the version.
#[tactic(auto, unfolding(crate::specs::Members::version_member))]
fn put_version(out: &mut Writer, version: Version) -> Result<(), AllocError>
    ensures tokens { OnOk result (out.new.tokens ≡ out.old.tokens ++ version_member version) }
    ensures before { out.new.before ≡ out.old.before }
{
    put_number(out, "version", version.byte() as u64)
}

/// Adds the length of the header.
#[tactic(auto, unfolding(crate::specs::Members::length_member))]
fn put_length(out: &mut Writer, length: u64) -> Result<(), AllocError>
    ensures tokens { OnOk result (out.new.tokens ≡ out.old.tokens ++ length_member length) }
    ensures before { out.new.before ≡ out.old.before }
{
    put_number(out, "header_length", length)
}

/// Adds the version, the number of records, and the length of the header.
#[tactic(auto, unfolding(crate::specs::Members::head_members))]
pub fn put_head(out: &mut Writer, header: &Header) -> Result<(), AllocError>
    ensures tokens { OnOk result (out.new.tokens ≡ out.old.tokens ++ head_members header.now) }
    ensures before { out.new.before ≡ out.old.before }
{
    put_version(out, header.schema.version)?;
    put_count(out, header.schema.count)?;
    put_length(out, header.length)?;
    Ok(())
}

/// Adds the mark of something that is so.
#[tactic(auto, unfolding(crate::specs::Members::mark_member))]
fn put_mark(out: &mut Writer, name: &str) -> Result<(), AllocError>
    ensures tokens { OnOk result (out.new.tokens ≡ out.old.tokens ++ mark_member name.now) }
    ensures before { out.new.before ≡ out.old.before }
{
    out.key(name)?;
    out.boolean(true)?;
    Ok(())
}

/// Adds the mark of the record dimension.
fn put_unlimited(out: &mut Writer, length: u64) -> Result<(), AllocError>
    ensures tokens { OnOk result (out.new.tokens ≡ out.old.tokens ++ unlimited_member length) }
    ensures before { out.new.before ≡ out.old.before }
{
    if length == 0 {
        return put_mark(out, "unlimited");
    }
    Ok(())
}

/// Adds a dimension.
#[tactic(auto, unfolding(crate::specs::Members::dim_object))]
fn put_dim(alloc: Global, out: &mut Writer, dim: &Dim) -> Result<(), AllocError>
    ensures tokens { OnOk result (out.new.tokens ≡ out.old.tokens ++ dim_object dim.now) }
    ensures before { out.new.before ≡ out.old.before }
{
    out.begin_object()?;
    put_bytes_member(alloc, out, "name", dim.name.as_slice())?;
    put_number(out, "length", dim.length)?;
    put_unlimited(out, dim.length)?;
    out.end_object()?;
    Ok(())
}

/// Adds dimensions, one after the other.
fn put_each_dim(alloc: Global, out: &mut Writer, dims: &[Dim]) -> Result<(), AllocError>
    ensures tokens { OnOk result (out.new.tokens ≡ out.old.tokens ++ flat_map dim_object dims.now) }
    ensures before { out.new.before ≡ out.old.before }
{
    for dim in dims {
        put_dim(alloc, out, dim)?;
    }
    Ok(())
}

/// Adds the list of dimensions.
#[tactic(auto, unfolding(crate::specs::Members::dims_member))]
pub fn put_dims(alloc: Global, out: &mut Writer, dims: &[Dim]) -> Result<(), AllocError>
    ensures tokens { OnOk result (out.new.tokens ≡ out.old.tokens ++ dims_member dims.now) }
    ensures before { out.new.before ≡ out.old.before }
{
    put_list(out, "dimensions")?;
    put_each_dim(alloc, out, dims)?;
    out.end_array()?;
    Ok(())
}

/// Adds numbers of dimensions, one after the other.
fn put_each_number(out: &mut Writer, numbers: &[usize]) -> Result<(), AllocError>
    ensures tokens { OnOk result (out.new.tokens ≡ out.old.tokens ++ map unsigned_token numbers.now) }
    ensures before { out.new.before ≡ out.old.before }
{
    for number in numbers {
        out.u64(*number as u64)?;
    }
    Ok(())
}

/// Adds the list of the numbers of a variable's dimensions.
#[tactic(auto, unfolding(crate::specs::Members::dim_numbers_member))]
fn put_dim_numbers(out: &mut Writer, numbers: &[usize]) -> Result<(), AllocError>
    ensures tokens { OnOk result (out.new.tokens ≡ out.old.tokens ++ dim_numbers_member numbers.now) }
    ensures before { out.new.before ≡ out.old.before }
{
    put_list(out, "dimensions")?;
    put_each_number(out, numbers)?;
    out.end_array()?;
    Ok(())
}

/// Adds what the header says of a variable's place.
#[tactic(auto, unfolding(crate::specs::Members::place_members))]
fn put_place(out: &mut Writer, place: VarPlace) -> Result<(), AllocError>
    ensures tokens { OnOk result (out.new.tokens ≡ out.old.tokens ++ place_members place) }
    ensures before { out.new.before ≡ out.old.before }
{
    put_number(out, "vsize", place.vsize)?;
    put_number(out, "begin", place.begin)?;
    Ok(())
}

/// Adds a variable.
#[tactic(auto, unfolding(crate::specs::Members::var_object))]
fn put_var(
    alloc: Global,
    out: &mut Writer,
    place: VarPlace,
    var: &Var,
    style: FloatStyle,
) -> Result<(), AllocError>
    ensures tokens { OnOk result (out.new.tokens ≡ out.old.tokens ++ var_object style place var.now) }
    ensures before { out.new.before ≡ out.old.before }
{
    out.begin_object()?;
    put_bytes_member(alloc, out, "name", var.name.as_slice())?;
    put_type(out, var.xtype)?;
    put_dim_numbers(out, var.dims.as_slice())?;
    put_attrs(alloc, out, var.attrs.as_slice(), style)?;
    put_place(out, place)?;
    out.end_object()?;
    Ok(())
}

/// The place of a variable, or all zeros where the header has none.
fn place_at(places: &[VarPlace], number: usize) -> VarPlace
    ensures { result ≡ place_at places.now number }
{
    match places.get(number) {
        Some(place) => *place,
        None => VarPlace {
            vsize: 0,
            begin: 0,
            begin_at: 0,
        },
    }
}

/// Adds variables, one after the other.
fn put_each_var(
    alloc: Global,
    out: &mut Writer,
    places: &[VarPlace],
    vars: &[Var],
    style: FloatStyle,
) -> Result<(), AllocError>
    ensures tokens { OnOk result (out.new.tokens ≡ out.old.tokens ++ var_objects style places.now 0 vars.now) }
    ensures before { out.new.before ≡ out.old.before }
{
    for (number, var) in vars.iter().enumerate() {
        put_var(alloc, out, place_at(places, number), var, style)?;
    }
    Ok(())
}

/// Adds the list of variables.
#[tactic(auto, unfolding(crate::specs::Members::vars_member))]
pub fn put_vars(
    alloc: Global,
    out: &mut Writer,
    places: &[VarPlace],
    vars: &[Var],
    style: FloatStyle,
) -> Result<(), AllocError>
    ensures tokens { OnOk result (out.new.tokens ≡ out.old.tokens ++ vars_member style places.now vars.now) }
    ensures before { out.new.before ≡ out.old.before }
{
    put_list(out, "variables")?;
    put_each_var(alloc, out, places, vars, style)?;
    out.end_array()?;
    Ok(())
}
