//! Which variables have a line and a colour of their own.

ghost use Rattle.std.specs.Prelude.{◌≡◌, IfOk, map};
ghost use Rattle.ncc_layout.specs.Extents.{NumberedFrom};
ghost use Rattle.ncc_picture.specs.Parts.{has_number, largest, turned};

use ncc_layout::Extent;
use ncc_places::order;
use std::alloc::{AllocError, Global};

/// How many variables have a line of their own at most.
pub const LINES: usize = 40;

const _: () = prove!(LINES == 40);

/// A variable with what its slab lacks to the greatest number in place of its begin.
fn turned(extent: &Extent) -> Extent
    ensures { result ≡ turned extent.now }
{
    Extent {
        begin: u64::MAX - extent.slab,
        slab: extent.slab,
        variable: extent.variable,
        is_record: extent.is_record,
    }
}

/// All variables so.
fn all_turned(alloc: Global, extents: &[Extent]) -> Result<Vec<Extent>, AllocError>
    ensures { IfOk result (λ v. v.items ≡ map turned extents.now) }
{
    let mut all = Vec::new(alloc);
    for extent in extents {
        all.push(turned(extent))?;
    }
    Ok(all)
}

/// The variables with the greatest slabs, of extents in the order of the header.
pub fn largest(alloc: Global, extents: &[Extent]) -> Result<Vec<Extent>, AllocError>
    requires { NumberedFrom 0 extents.now }
    ensures { IfOk result (λ v. v.items ≡ largest extents.now) }
{
    let mut large = all_turned(alloc, extents)?;
    order(&mut large);
    large.truncate(LINES);
    Ok(large)
}

/// Whether the variable with this number is among these.
pub fn has_number(extents: &[Extent], number: usize) -> bool
    ensures { result ≡ has_number extents.now number }
{
    for extent in extents {
        if extent.variable == number {
            return true;
        }
    }
    false
}
