//! Which schemas a version can tell.

ghost use Rattle.std.specs.Prelude.{◌≡◌, ◌+◌, ◌<◌, ◌≤◌, ◌↔◌, map, IsTrue};
ghost use Rattle.std.specs.List.{AllByRecursion};
ghost use Rattle.ncc_schema.specs.Schema.{offset_limit, places_of, Sound};
ghost use Rattle.ncc_schema.specs.Names.{capped, header_length};
ghost use Rattle.ncc_layout.specs.Sizes.{rounded, AreSizes};
ghost use Rattle.ncc_layout.specs.Standard.{size_limit, fixed_sum, FitsVersion};

use crate::size_list::Sizes;
use crate::sizing::ROOM;
use crate::vsize::MOST_VSIZE;
use ncc_schema::{Schema, VarPlace, is_record_var, limit_of_offsets};
use ncc_values::Version;

/// The greatest size that a vsize tells.
fn size_limit(version: Version) -> u64
    ensures { result ≡ size_limit version }
{
    match version {
        Version::V1 | Version::V2 => MOST_VSIZE,
        Version::V5 => ROOM,
    }
}

/// Can the version tell each of these sizes?
fn words_fit(version: Version, sizes: &[u64]) -> bool
    ensures { IsTrue result ↔ AllByRecursion (λ n. n ≤ size_limit version) sizes.now }
{
    let limit = size_limit(version);
    for size in sizes {
        if *size > limit {
            return false;
        }
    }
    true
}

/// Where the records begin in a standard placement: after a header of this length and the fixed variables, by the padded
/// sizes of all variables. 2^64 - 1 where that is more.
pub fn records_begin(schema: &Schema, sizes: &[u64], header: u64) -> u64
    requires sound { Sound schema.now }
    requires sizes { sizes.now ≡ map (rounded schema.now.dims) schema.now.vars }
    requires header { header ≡ capped (header_length schema.now) }
    ensures { result ≡ capped (header_length schema.now + fixed_sum schema.now.dims schema.now.vars) }
{
    let dims = schema.dims.as_slice();
    let vars = schema.vars.as_slice();
    let mut begin = header;
    for number in 0..vars.len() {
        if !is_record_var(dims, &vars[number]) {
            begin = begin.saturating_add(sizes[number]);
        }
    }
    begin
}

/// Can the version tell the sizes, and a file have all bytes?
pub fn fits_version(schema: &Schema, found: &Sizes, records_begin: u64, records: u64) -> bool
    requires sizes { AreSizes schema.now found.now }
    requires begin { records_begin ≡ capped (header_length schema.now + fixed_sum schema.now.dims schema.now.vars) }
    ensures { IsTrue result ↔ FitsVersion schema.now records }
{
    if !words_fit(schema.version, found.rounded.as_slice()) {
        return false;
    }
    records_begin.saturating_add(records.saturating_mul(found.record_size)) < 1 << 63
}

/// Can the version tell each of these begins?
pub fn offsets_fit(version: Version, places: &[VarPlace]) -> bool
    ensures { IsTrue result ↔ AllByRecursion (λ p. p.begin < offset_limit version) (places_of places.now) }
{
    let limit = limit_of_offsets(version);
    for place in places {
        if place.begin >= limit {
            return false;
        }
    }
    true
}
