//! Where the bytes of a variable stand.

ghost use Rattle.std.specs.Prelude.{◌≡◌, ◌+◌, ◌≤◌, IfSome};
ghost use Rattle.ncc_layout.specs.Elements.{var_at};
ghost use Rattle.ncc_layout.specs.Placed.{file_length_of, record_size_of_file, vars_of};
ghost use Rattle.ncc_slab.specs.SlabPlaces.{slab_begin, HasSlab, IsSlabPlace};

use crate::gridding::length_fits;
use ncc_layout::Placed;
use ncc_layout::laws::placed_file_keeps_all_rules;

/// Where a slab that is there begins.
fn begin_of(placed: &Placed, var: usize, number: u64) -> u64
    requires { HasSlab placed.now var number }
    ensures begin { result ≡ slab_begin (record_size_of_file placed.now) (var_at (vars_of placed.now) var) number }
    ensures inside { result + (var_at (vars_of placed.now) var).extent.slab ≤ file_length_of placed.now }
{
    placed_file_keeps_all_rules();
    length_fits(placed);
    if !placed.is_record(var) {
        return placed.begin(var);
    }
    placed.begin(var) + number * placed.record_size()
}

/// The offset of the first byte of a variable's slab, of a record variable of that in the record with this
/// number. None where there is no such variable, or the record variable has no such record. It allocates nothing.
pub fn slab_place(placed: &Placed, var: usize, number: u64) -> Option<u64>
    ensures place { IsSlabPlace placed.now var number result }
    ensures inside { IfSome result (λ place. place + (var_at (vars_of placed.now) var).extent.slab
        ≤ file_length_of placed.now) }
{
    if var >= placed.vars().len() {
        return None;
    }
    if placed.is_record(var) && number >= placed.records() {
        return None;
    }
    Some(begin_of(placed, var, number))
}
