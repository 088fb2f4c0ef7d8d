//! The schema of a file, built anew in another version.

ghost use Rattle.std.specs.Prelude.{◌≡◌, ◌<◌, IfOk, OnOk, length};
ghost use Rattle.ncc_schema.specs.Schema.{with_count};
ghost use Rattle.ncc_build.specs.Dataset.{with_version};
ghost use Rattle.ncc_build.specs.Building.{no_schema, refuses_dims, refuses_globals, refuses_attrs, refuses_whole, refuses_vars, refuses_schema, with_dims, with_globals, with_attrs, with_vars, with_whole, IsJudged, RebuildsAs};
ghost use Rattle.ncc_build.specs.Builds.{schema_so_far, schema_of};

use crate::builder::SchemaBuilder;
use crate::built::Built;
use crate::fault::WriteFault;
use ncc_schema::{Attr, Dim, Schema, Var};
use ncc_values::{InlineList, Values, Version};
use std::alloc::{AllocError, Global};

/// The same elements, in memory of their own.
fn own_items<T: Copy + Default, const N: usize>(
    alloc: Global,
    items: &InlineList<T, N>,
) -> Result<InlineList<T, N>, AllocError>
    ensures { IfOk result (λ few. few ≡ items.now) }
{
    InlineList::from_slice(alloc, items.as_slice())
}

/// The same values, in memory of their own.
fn copied(alloc: Global, values: &Values) -> Result<Values, AllocError>
    ensures { IfOk result (λ v. v ≡ values.now) }
{
    match values {
        Values::Bytes(items) => own_items(alloc, items).map(Values::Bytes),
        Values::Chars(items) => own_items(alloc, items).map(Values::Chars),
        Values::Shorts(items) => own_items(alloc, items).map(Values::Shorts),
        Values::Ints(items) => own_items(alloc, items).map(Values::Ints),
        Values::Floats(items) => own_items(alloc, items).map(Values::Floats),
        Values::Doubles(items) => own_items(alloc, items).map(Values::Doubles),
        Values::UBytes(items) => own_items(alloc, items).map(Values::UBytes),
        Values::UShorts(items) => own_items(alloc, items).map(Values::UShorts),
        Values::UInts(items) => own_items(alloc, items).map(Values::UInts),
        Values::Int64s(items) => own_items(alloc, items).map(Values::Int64s),
        Values::UInt64s(items) => own_items(alloc, items).map(Values::UInt64s),
    }
}

/// Adds dimensions after those that are there.
fn add_dims(builder: &mut SchemaBuilder, dims: &[Dim]) -> Result<(), WriteFault>
    ensures judged { IsJudged (refuses_dims (schema_so_far builder.old) dims.now) result }
    ensures added { OnOk result (schema_so_far builder.new ≡ with_dims (schema_so_far builder.old) dims.now) }
{
    for dim in dims {
        builder.dim(dim.name.as_slice(), dim.length)?;
    }
    Ok(())
}

/// Adds attributes of the whole file after those that are there.
fn add_globals(alloc: Global, builder: &mut SchemaBuilder, attrs: &[Attr]) -> Result<(), WriteFault>
    ensures judged { IsJudged (refuses_globals (schema_so_far builder.old) attrs.now) result }
    ensures added { OnOk result (schema_so_far builder.new ≡ with_globals (schema_so_far builder.old) attrs.now) }
{
    for attr in attrs {
        let values = copied(alloc, &attr.values)?;
        builder.global(attr.name.as_slice(), values)?;
    }
    Ok(())
}

/// Adds attributes of a variable after those that it has.
fn add_attrs(
    alloc: Global,
    builder: &mut SchemaBuilder,
    var: usize,
    attrs: &[Attr],
) -> Result<(), WriteFault>
    requires { var < length (schema_so_far builder.old).vars }
    ensures judged { IsJudged (refuses_attrs (schema_so_far builder.old) var attrs.now) result }
    ensures added { OnOk result (schema_so_far builder.new ≡ with_attrs (schema_so_far builder.old) var attrs.now) }
{
    for attr in attrs {
        let values = copied(alloc, &attr.values)?;
        builder.attr(var, attr.name.as_slice(), values)?;
    }
    Ok(())
}

/// Adds a variable, and its attributes.
fn add_whole(alloc: Global, builder: &mut SchemaBuilder, var: &Var) -> Result<(), WriteFault>
    ensures judged { IsJudged (refuses_whole (schema_so_far builder.old) var.now) result }
    ensures added { OnOk result (schema_so_far builder.new ≡ with_whole (schema_so_far builder.old) var.now) }
{
    let number = builder.var(var.name.as_slice(), var.xtype, var.dims.as_slice())?;
    builder.reserve_attrs(number, var.attrs.len())?;
    add_attrs(alloc, builder, number, var.attrs.as_slice())
}

/// Adds variables, each followed by its attributes, after those that are there.
fn add_vars(alloc: Global, builder: &mut SchemaBuilder, vars: &[Var]) -> Result<(), WriteFault>
    ensures judged { IsJudged (refuses_vars (schema_so_far builder.old) vars.now) result }
    ensures added { OnOk result (schema_so_far builder.new ≡ with_vars (schema_so_far builder.old) vars.now) }
{
    for var in vars {
        add_whole(alloc, builder, var)?;
    }
    Ok(())
}

/// Adds all items of a schema in the order of a header.
fn add_all(alloc: Global, builder: &mut SchemaBuilder, schema: &Schema) -> Result<(), WriteFault>
    requires { schema_so_far builder.old ≡ no_schema (schema_so_far builder.old).version }
    ensures judged { IsJudged (refuses_schema (schema_so_far builder.old).version schema.now) result }
    ensures added { OnOk result (schema_so_far builder.new
        ≡ with_count (with_version schema.now (schema_so_far builder.old).version) 0) }
{
    add_dims(builder, schema.dims.as_slice())?;
    add_globals(alloc, builder, schema.gatts.as_slice())?;
    add_vars(alloc, builder, schema.vars.as_slice())
}

/// The same dimensions, attributes and variables in another version, with so many records, at their standard places.
/// It is refused where a builder's calls would be, in the order of a header: each dimension, each attribute of the
/// whole file, then each variable followed by its attributes; then for the number of records, a size, or the place of a
/// variable.
pub fn rebuilt(
    alloc: Global,
    schema: &Schema,
    version: Version,
    records: u64,
) -> Result<Built, WriteFault>
    ensures built { IfOk result (λ b. schema_of b ≡ with_count (with_version schema.now version) records) }
    ensures judged { RebuildsAs version schema.now records result }
{
    let mut builder = SchemaBuilder::new(alloc, version);
    add_all(alloc, &mut builder, schema)?;
    match builder.build(records) {
        Ok(built) => Ok(built),
        Err((_, fault)) => Err(fault),
    }
}
