//! Reading all values of a selection.

ghost use Rattle.std.specs.Prelude.{◌≡◌, None, map, true, IsTrue, IfOk};
ghost use Rattle.ncc_values.specs.XType.{size_of};
ghost use Rattle.ncc_values.specs.Values.{type_of, count_of};
ghost use Rattle.ncc_layout.specs.Elements.{var_at};
ghost use Rattle.ncc_layout.specs.Placed.{file_length_of, record_size_of_file, vars_of};
ghost use Rattle.ncc_check.specs.Files.{ReadsFile, store_of, placed_of};
ghost use Rattle.ncc_slab.specs.Answers.{ReadsAs, SlabCounts};
ghost use Rattle.ncc_slab.specs.Refusals.{slab_fault};
ghost use Rattle.ncc_slab.specs.Selected.{Selected, number_at, numbers_of, places_of};
ghost use Rattle.ncc_slab.specs.Selection.{indices_of, selected_count};
ghost use Rattle.ncc_slab.specs.Stretches.{all_stretches};

use crate::fault::SlabFault;
use crate::fetching::add_all;
use crate::gridding::grid_of;
use crate::slab::Slab;
use ncc_check::NcFile;
use ncc_store::Store;
use ncc_values::Values;
use std::alloc::Global;

/// The bytes that are read before they become values.
pub(crate) const BUFFER: usize = 65_536;

/// The values of a selection of the variable with this number, row-major. A selection is refused before
/// any memory is asked for and any byte is read. Of 65,536 bytes of them each stretch of adjoining elements
/// is read by one call of the store.
pub fn read_slab<S: Store>(
    alloc: Global,
    file: &mut NcFile<S>,
    var: usize,
    slab: &Slab,
) -> Result<Values, SlabFault>
    ensures answers { ReadsAs (vars_of (placed_of file.old)) var slab.now result }
    ensures still { (slab_fault (vars_of (placed_of file.old)) var slab.now ≡ None → ⊥) → file.new ≡ file.old }
    ensures values { IsTrue S.tells_bytes → IfOk result (Selected (S.bytes (store_of file.old))
        (record_size_of_file (placed_of file.old)) (var_at (vars_of (placed_of file.old)) var) slab.now) }
    ensures numbers { IsTrue S.tells_bytes → IfOk result (λ v. numbers_of v ≡ map (number_at
        (S.bytes (store_of file.old)) (record_size_of_file (placed_of file.old))
        (var_at (vars_of (placed_of file.old)) var)) (indices_of slab.now)) }
    ensures typed { IfOk result (λ v. type_of v ≡ (var_at (vars_of (placed_of file.old)) var).xtype) }
    ensures counted { IfOk result (λ v. count_of v ≡ selected_count slab.now) }
    ensures file { ReadsFile file.old file.new (λ a b. SlabCounts a b result) true
        (all_stretches (size_of (var_at (vars_of (placed_of file.old)) var).xtype) (places_of
        (record_size_of_file (placed_of file.old)) (var_at (vars_of (placed_of file.old)) var) slab.now))
        (file_length_of (placed_of file.old)) }
{
    let grid = grid_of(alloc, file.placed(), var, slab)?;
    let mut values = Values::new(alloc, file.placed().xtype(var));
    // A small selection has a small buffer: all of it is cleared.
    let size = values.xtype().size();
    let most = grid.count().min((BUFFER / size) as u64) as usize;
    let mut buffer = vec![in alloc; 0; most * size]?;
    add_all(file, &grid, &mut buffer, &mut values)?;
    Ok(values)
}
