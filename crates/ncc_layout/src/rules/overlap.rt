//! The rule that no two fixed variables share a byte, and no two record variables in record 0.

ghost use Rattle.std.specs.Prelude.{◌≡◌};
ghost use Rattle.std.specs.List.{AllByRecursion};
ghost use Rattle.std.specs.List.Sorted.{IsPermutation};
ghost use Rattle.ncc_layout.specs.Bounds.{HasBytes, AreNumbered, inside, inside_from};
ghost use Rattle.ncc_layout.specs.Rules.Overlap.{Overlaps, of_kind};

use crate::extent::Extent;

/// The first of one kind that begins before the one of its kind in front of it ends.
fn inside_of(extents: &[Extent], is_record: bool) -> Option<usize>
    ensures { result ≡ inside_from 0 (of_kind is_record extents.now) }
{
    let mut end = 0;
    for extent in extents {
        if extent.is_record == is_record {
            if (extent.begin as u128) < end {
                return Some(extent.variable);
            }
            end = extent.end();
        }
    }
    None
}

/// The first fixed variable that begins before the one in front of it ends, else the first record variable.
fn inside(extents: &[Extent]) -> Option<usize>
    ensures { result ≡ inside extents.now }
{
    match inside_of(extents, false) {
        Some(variable) => Some(variable),
        None => inside_of(extents, true),
    }
}

/// The first fixed variable, in the order of begin and number, that shares a byte with one before it, else the first
/// record variable that does so in record 0. The extents are put into that order, unless those of each kind lie one
/// after another.
pub fn overlap(extents: &mut [Extent]) -> Option<usize>
    requires bytes { AllByRecursion HasBytes extents.old }
    requires numbered { AreNumbered extents.old }
    ensures found { Overlaps extents.old result }
    ensures moved { IsPermutation extents.old extents.new }
{
    inside(extents)?;
    extents.sort_unstable_by_key(|e| e.rank());
    inside(extents)
}
