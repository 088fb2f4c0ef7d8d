//! The lengths of the parts of a canonical header. A length past 2^64 - 1 counts as 2^64 - 1.

ghost use Rattle.std.specs.Prelude.{◌≡◌, ◌+◌, length};
ghost use Rattle.ncc_schema.specs.Names.{capped, list_size, vars_at, gatts_at, header_length};

use crate::rules::attr::attrs_size;
use crate::rules::dim::dims_size;
use crate::rules::list::list_size;
use crate::rules::var::vars_size;
use crate::schema::Schema;

/// Where the attributes of the file are.
pub fn gatts_at(schema: &Schema) -> u64
    ensures { result ≡ capped (gatts_at schema.now) }
{
    let version = schema.version;
    dims_size(version, schema.dims.as_slice()).saturating_add(2 * list_size(version))
}

/// Where the first variable is.
pub fn vars_start(schema: &Schema) -> u64
    ensures { result ≡ capped (vars_at schema.now + list_size schema.now.version) }
{
    let version = schema.version;
    gatts_at(schema)
        .saturating_add(attrs_size(version, schema.gatts.as_slice()))
        .saturating_add(2 * list_size(version))
}

/// The length of the canonical header, wherever its variables are.
pub fn header_length(schema: &Schema) -> u64
    ensures { result ≡ capped (header_length schema.now) }
{
    vars_start(schema).saturating_add(vars_size(schema.version, schema.vars.as_slice()))
}
