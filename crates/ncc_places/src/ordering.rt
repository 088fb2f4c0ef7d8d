//! Variables in the order in which they lie in a file.

ghost use Rattle.std.specs.Prelude.{◌≡◌, ◌≤◌, ◌^◌, IfOk, length};
ghost use Rattle.ncc_schema.specs.Schema.{Legal, places_of};
ghost use Rattle.ncc_layout.specs.Bounds.{rank};
ghost use Rattle.ncc_layout.specs.Extents.{NumberedFrom};
ghost use Rattle.ncc_layout.specs.Sizes.{AreSizes};
ghost use Rattle.ncc_check.specs.Notes.{extents_in};
ghost use Rattle.ncc_places.specs.Order.{by_begin};

use ncc_header::Header;
use ncc_layout::{Extent, Sizes};
use ncc_parts::extent_of;
use std::alloc::{AllocError, Global};

/// The extents of the variables, in the order of the header.
pub fn extents_in(alloc: Global, header: &Header, sizes: &Sizes) -> Result<Vec<Extent>, AllocError>
    requires legal { Legal header.now.schema (places_of header.now.places) }
    requires sizes { AreSizes header.now.schema sizes.now }
    ensures { IfOk result (λ v. v.items ≡ extents_in header.now) }
{
    let mut extents = Vec::new(alloc);
    for number in 0..header.schema.vars.len() {
        extents.push(extent_of(header, sizes, number))?;
    }
    Ok(extents)
}

/// A number that orders extents by begin, and then by variable.
fn rank(extent: &Extent) -> u128
    ensures { result ≡ rank extent.now }
{
    extent.begin as u128 * (1 << 64) + extent.variable as u128
}

/// Puts extents in the order of their begins, and of equal begins in that of their numbers.
pub fn order(extents: &mut [Extent])
    requires numbered { NumberedFrom 0 extents.old }
    requires few { length extents.old ≤ 2 ^ 63 }
    ensures { extents.new ≡ by_begin extents.old }
{
    extents.sort_unstable_by_key(|extent| rank(extent));
}
