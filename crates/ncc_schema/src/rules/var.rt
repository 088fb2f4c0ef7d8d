//! The rules var_list = ABSENT | NC_VARIABLE nelems [var ...] and var = name nelems [dimid ...] vatt_list nc_type vsize begin.

ghost use Rattle.std.specs.Prelude.{◌≡◌, ◌<◌, ◌*◌, List, length, zip, ◌+◌};
ghost use Rattle.std.specs.List.{AllByRecursion, flat_map};
ghost use Rattle.ncc_schema.specs.declared.schema.Dim.{Dim as DimOf};
ghost use Rattle.ncc_values.specs.Failures.{Counts};
ghost use Rattle.ncc_schema.specs.Device.{WritesAll};
ghost use Rattle.ncc_schema.specs.Schema.{count_limit, place_of, places_of, LegalVar, LegalPlace, Legal};
ghost use Rattle.ncc_schema.specs.Header.{nc_variable, canon_list, canon_dimids, canon_var};
ghost use Rattle.ncc_schema.specs.Names.{capped, attrs_in, canon_unplaced};

use crate::numbers::{put_begin, put_non_neg, put_word};
use crate::rules::attr::{attrs_size, put_attrs};
use crate::rules::list::{list_size, put_head};
use crate::rules::name::{name_size, put_name};
use crate::schema::{Schema, Var, VarPlace};
use crate::sink::Sink;
use crate::tags::NC_VARIABLE;
use ncc_values::{Device, Version};

/// nelems [dimid ...]
fn put_dimids<W: Sink>(sink: &mut W, version: Version, ids: &[usize]) -> Result<(), Device>
    requires number { length ids.now < count_limit version }
    requires each { AllByRecursion (λ n. n < count_limit version) ids.now }
    ensures bytes { WritesAll (W.put sink.old) (W.put sink.new) result (canon_dimids version ids.now) }
    ensures count { Counts (W.failures sink.old) (W.failures sink.new) result }
{
    put_non_neg(sink, version, ids.len() as u64)?;
    for id in ids {
        put_non_neg(sink, version, *id as u64)?;
    }
    Ok(())
}

/// var = name nelems [dimid ...] vatt_list nc_type vsize begin
fn put_var<W: Sink>(
    sink: &mut W,
    version: Version,
    var: &Var,
    place: &VarPlace,
) -> Result<(), Device>
    requires var { (dims : List DimOf) × (length dims < count_limit version) × LegalVar version dims var.now }
    requires place { LegalPlace version (place_of place.now) }
    ensures bytes { WritesAll (W.put sink.old) (W.put sink.new) result
        (canon_var version (var.now, place_of place.now)) }
    ensures count { Counts (W.failures sink.old) (W.failures sink.new) result }
{
    put_name(sink, version, var.name.as_slice())?;
    put_dimids(sink, version, var.dims.as_slice())?;
    put_attrs(sink, version, var.attrs.as_slice())?;
    put_word(sink, var.xtype.code())?;
    put_non_neg(sink, version, place.vsize)?;
    put_begin(sink, version, place.begin)
}

/// var_list = ABSENT | NC_VARIABLE nelems [var ...]
pub fn put_vars<W: Sink>(sink: &mut W, schema: &Schema, places: &[VarPlace]) -> Result<(), Device>
    requires { Legal schema.now (places_of places.now) }
    ensures bytes { WritesAll (W.put sink.old) (W.put sink.new) result
        (canon_list schema.now.version nc_variable (canon_var schema.now.version) (zip schema.now.vars (places_of places.now))) }
    ensures count { Counts (W.failures sink.old) (W.failures sink.new) result }
{
    let vars = schema.vars.as_slice();
    put_head(sink, schema.version, NC_VARIABLE, vars.len())?;
    for i in 0..vars.len() {
        put_var(sink, schema.version, &vars[i], &places[i])?;
    }
    Ok(())
}

fn dimids_size(version: Version, ids: &[usize]) -> u64
    ensures { result ≡ capped (length (canon_dimids version ids.now)) }
{
    let number = (ids.len() as u64).saturating_add(1);
    number.saturating_mul(version.count_width() as u64)
}

/// The bytes of a variable before its first attribute.
pub fn attrs_in(version: Version, var: &Var) -> u64
    ensures { result ≡ capped (attrs_in version var.now) }
{
    name_size(version, var.name.as_slice())
        .saturating_add(dimids_size(version, var.dims.as_slice()))
        .saturating_add(list_size(version))
}

/// The bytes of a variable in the canonical header, wherever it is.
pub fn var_size(version: Version, var: &Var) -> u64
    ensures { result ≡ capped (length (canon_unplaced version var.now)) }
{
    let numbers = 4 + version.count_width() as u64 + version.offset_width() as u64;
    attrs_in(version, var)
        .saturating_add(attrs_size(version, var.attrs.as_slice()))
        .saturating_add(numbers)
}

pub fn vars_size(version: Version, vars: &[Var]) -> u64
    ensures { result ≡ capped (length (flat_map (canon_unplaced version) vars.now)) }
{
    let mut size: u64 = 0;
    for var in vars {
        size = size.saturating_add(var_size(version, var));
    }
    size
}
