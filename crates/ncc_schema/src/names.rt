//! Where the names of a canonical header stand.

ghost use Rattle.std.specs.Prelude.{◌≡◌, ◌+◌, ◌<◌, length};
ghost use Rattle.ncc_schema.specs.Schema.{places_of, Legal};
ghost use Rattle.ncc_schema.specs.Header.{canon_dim, canon_attr, canon};
ghost use Rattle.ncc_schema.specs.Names.{capped, head_size, list_size, before, attrs_in, gatts_at, vars_at, HasName, name_at, canon_unplaced};

use crate::lengths::{gatts_at, vars_start};
use crate::rules::attr::attrs_size;
use crate::rules::dim::dims_size;
use crate::rules::list::list_size;
use crate::rules::var::{attrs_in, vars_size};
use crate::schema::{Header, Schema, Var};
use ncc_values::Version;

/// A name of a schema, by numbers: of a dimension, of an attribute of the file, of a variable, or
/// of an attribute of a variable.
#[derive(Clone, Copy, Debug, PartialEq, Eq)]
pub enum NameOf {
    Dim(usize),
    Global(usize),
    Var(usize),
    Attr(usize, usize),
}

/// Where a dimension is.
fn dim_at(schema: &Schema, i: usize) -> u64
    requires { i < length schema.now.dims }
    ensures { result ≡ capped (head_size schema.now.version + list_size schema.now.version
        + before (canon_dim schema.now.version) i schema.now.dims) }
{
    let version = schema.version;
    dims_size(version, &schema.dims.as_slice()[..i]).saturating_add(2 * list_size(version))
}

/// Where an attribute of the file is.
fn global_at(schema: &Schema, i: usize) -> u64
    requires { i < length schema.now.gatts }
    ensures { result ≡ capped (gatts_at schema.now + list_size schema.now.version
        + before (canon_attr schema.now.version) i schema.now.gatts) }
{
    let version = schema.version;
    gatts_at(schema)
        .saturating_add(attrs_size(version, &schema.gatts.as_slice()[..i]))
        .saturating_add(list_size(version))
}

/// Where a variable is.
fn var_at(schema: &Schema, i: usize) -> u64
    requires { i < length schema.now.vars }
    ensures { result ≡ capped (vars_at schema.now + list_size schema.now.version
        + before (canon_unplaced schema.now.version) i schema.now.vars) }
{
    vars_start(schema).saturating_add(vars_size(schema.version, &schema.vars.as_slice()[..i]))
}

/// Where an attribute of a variable is, counted from the variable.
fn attr_in(version: Version, var: &Var, i: usize) -> u64
    requires { i < length var.now.attrs }
    ensures { result ≡ capped (attrs_in version var.now + before (canon_attr version) i var.now.attrs) }
{
    attrs_in(version, var).saturating_add(attrs_size(version, &var.attrs.as_slice()[..i]))
}

/// The offset of a name's length in a header that is canonical.
pub fn name_at(header: &Header, of: NameOf) -> u64
    requires legal { Legal header.now.schema (places_of header.now.places) }
    requires long { header.now.length ≡ length (canon header.now.schema (places_of header.now.places)) }
    requires there { HasName header.now.schema of }
    ensures { result ≡ name_at header.now.schema (places_of header.now.places) of }
{
    let schema = &header.schema;
    match of {
        NameOf::Dim(i) => dim_at(schema, i),
        NameOf::Global(i) => global_at(schema, i),
        NameOf::Var(i) => var_at(schema, i),
        NameOf::Attr(i, j) => {
            let var = &schema.vars.as_slice()[i];
            var_at(schema, i).saturating_add(attr_in(schema.version, var, j))
        }
    }
}
