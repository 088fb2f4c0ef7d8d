//! The rules dim_list = ABSENT | NC_DIMENSION nelems [dim ...] and dim = name dim_length.

ghost use Rattle.std.specs.Prelude.{◌≡◌, ◌<◌, length};
ghost use Rattle.std.specs.List.{AllByRecursion, flat_map};
ghost use Rattle.ncc_values.specs.Failures.{Counts};
ghost use Rattle.ncc_schema.specs.Device.{WritesAll};
ghost use Rattle.ncc_schema.specs.Schema.{count_limit, LegalDim};
ghost use Rattle.ncc_schema.specs.Header.{nc_dimension, canon_list, canon_dim};
ghost use Rattle.ncc_schema.specs.Names.{capped};

use crate::numbers::put_non_neg;
use crate::rules::list::put_head;
use crate::rules::name::{name_size, put_name};
use crate::schema::Dim;
use crate::sink::Sink;
use crate::tags::NC_DIMENSION;
use ncc_values::{Device, Version};

/// dim = name dim_length
fn put_dim<W: Sink>(sink: &mut W, version: Version, dim: &Dim) -> Result<(), Device>
    requires { LegalDim version dim.now }
    ensures bytes { WritesAll (W.put sink.old) (W.put sink.new) result (canon_dim version dim.now) }
    ensures count { Counts (W.failures sink.old) (W.failures sink.new) result }
{
    put_name(sink, version, dim.name.as_slice())?;
    put_non_neg(sink, version, dim.length)
}

/// dim_list = ABSENT | NC_DIMENSION nelems [dim ...]
pub fn put_dims<W: Sink>(sink: &mut W, version: Version, dims: &[Dim]) -> Result<(), Device>
    requires number { length dims.now < count_limit version }
    requires each { AllByRecursion (LegalDim version) dims.now }
    ensures bytes { WritesAll (W.put sink.old) (W.put sink.new) result
        (canon_list version nc_dimension (canon_dim version) dims.now) }
    ensures count { Counts (W.failures sink.old) (W.failures sink.new) result }
{
    put_head(sink, version, NC_DIMENSION, dims.len())?;
    for dim in dims {
        put_dim(sink, version, dim)?;
    }
    Ok(())
}

/// The bytes of a dimension.
pub fn dim_size(version: Version, dim: &Dim) -> u64
    ensures { result ≡ capped (length (canon_dim version dim.now)) }
{
    name_size(version, dim.name.as_slice()).saturating_add(version.count_width() as u64)
}

pub fn dims_size(version: Version, dims: &[Dim]) -> u64
    ensures { result ≡ capped (length (flat_map (canon_dim version) dims.now)) }
{
    let mut size: u64 = 0;
    for dim in dims {
        size = size.saturating_add(dim_size(version, dim));
    }
    size
}
