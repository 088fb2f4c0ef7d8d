//! The bytes that a variable of a header takes, and where the records begin.

ghost use Rattle.std.specs.Prelude.{◌≡◌, ◌<◌, length};
ghost use Rattle.ncc_schema.specs.Schema.{Legal, places_of};
ghost use Rattle.ncc_layout.specs.Extents.{begin_sooner, extents_of, least_begin, records_of};
ghost use Rattle.ncc_layout.specs.Sizes.{AreSizes};
ghost use Rattle.ncc_parts.specs.Breaking.{extent_at};

use ncc_header::{Header, is_record_var};
use ncc_layout::{Extent, Sizes};

/// The extent of the variable of this number.
pub fn extent_of(header: &Header, sizes: &Sizes, number: usize) -> Extent
    requires legal { Legal header.now.schema (places_of header.now.places) }
    requires sizes { AreSizes header.now.schema sizes.now }
    requires there { number < length header.now.schema.vars }
    ensures { result ≡ extent_at header.now number }
{
    let schema = &header.schema;
    Extent {
        begin: header.places.as_slice()[number].begin,
        slab: sizes.slabs.as_slice()[number],
        variable: number,
        is_record: is_record_var(schema.dims.as_slice(), &schema.vars.as_slice()[number]),
    }
}

/// The lesser of a begin and the least of others, where there are others.
fn sooner(least: Option<u64>, begin: u64) -> u64
    ensures { result ≡ begin_sooner least begin }
{
    match least {
        Some(other) => other.min(begin),
        None => begin,
    }
}

/// The least begin of a record variable.
pub fn records_begin(header: &Header, sizes: &Sizes) -> Option<u64>
    requires legal { Legal header.now.schema (places_of header.now.places) }
    requires sizes { AreSizes header.now.schema sizes.now }
    ensures { result ≡ least_begin (records_of (extents_of header.now.schema (places_of header.now.places))) }
{
    let mut least = None;
    for number in (0..header.schema.vars.len()).rev() {
        let extent = extent_of(header, sizes, number);
        if extent.is_record {
            least = Some(sooner(least, extent.begin));
        }
    }
    least
}
