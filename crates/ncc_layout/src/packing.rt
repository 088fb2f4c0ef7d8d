//! Whether record variables stand one after another.

ghost use Rattle.std.specs.Prelude.{◌↔◌, IsTrue, map};
ghost use Rattle.ncc_layout.specs.Extents.{records_of};
ghost use Rattle.ncc_layout.specs.Standard.{PackedFrom};

use crate::placed_var::PlacedVar;
use ncc_values::pad;

/// Do the record variables stand one after another from this place on, each with its padding?
pub(crate) fn are_packed(vars: &[PlacedVar], begin: u64) -> bool
    ensures { IsTrue result ↔ PackedFrom begin (records_of (map (λ x. x.extent) vars.now)) }
{
    let mut at = begin as u128;
    for var in vars {
        if var.extent.is_record {
            if var.extent.begin as u128 != at {
                return false;
            }
            at += var.extent.slab as u128 + pad(var.extent.slab) as u128;
        }
    }
    true
}
