//! The selection of a whole slab.

ghost use Rattle.std.specs.Prelude.{◌≡◌, IfOk};
ghost use Rattle.ncc_layout.specs.Elements.{var_at};
ghost use Rattle.ncc_layout.specs.Placed.{vars_of};
ghost use Rattle.ncc_check.specs.Files.{placed_of};
ghost use Rattle.ncc_slab.specs.SlabPlaces.{HasSlab};
ghost use Rattle.ncc_slab.specs.WholeSlabs.{whole_slab, SelectsSlab};

use crate::fault::SlabFault;
use crate::slab::Slab;
use ncc_check::NcFile;
use ncc_layout::Placed;
use ncc_layout::laws::placed_file_keeps_all_rules;
use ncc_store::Store;
use ncc_values::Seq;
use std::alloc::{AllocError, Global};

/// The selection of a slab that is there.
fn whole_slab(alloc: Global, placed: &Placed, var: usize, number: u64) -> Result<Slab, AllocError>
    requires { HasSlab placed.now var number }
    ensures { IfOk result (λ s. s ≡ whole_slab (var_at (vars_of placed.now) var) number) }
{
    placed_file_keeps_all_rules();
    let shape = placed.shape(var);
    let mut start = vec![in alloc; 0; shape.len()]?;
    let mut count = shape.to_vec(alloc)?;
    let stride = vec![in alloc; 1; shape.len()]?;
    if placed.is_record(var) {
        start[0] = number;
        count[0] = 1;
    }
    Ok(Slab {
        start: Seq::from_vec(start),
        count: Seq::from_vec(count),
        stride: Seq::from_vec(stride),
    })
}

/// The selection of a variable's slab: of all elements of a fixed variable, whatever the number, or of those of a
/// record variable in the record with this number. Where there is no such variable it is refused as NoVariable,
/// and where a record variable has no such record as Outside(0), before any memory is asked for.
pub fn slab_of<S: Store>(
    alloc: Global,
    file: &NcFile<S>,
    var: usize,
    number: u64,
) -> Result<Slab, SlabFault>
    ensures { SelectsSlab (placed_of file.now) var number result }
{
    let placed = file.placed();
    if var >= placed.vars().len() {
        return Err(SlabFault::NoVariable);
    }
    if placed.is_record(var) && number >= placed.records() {
        return Err(SlabFault::Outside(0));
    }
    match whole_slab(alloc, placed, var, number) {
        Ok(slab) => Ok(slab),
        Err(_) => Err(SlabFault::Memory),
    }
}
