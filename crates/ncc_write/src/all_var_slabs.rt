//! What is put for the slabs of a schema's variables.

ghost use Rattle.std.specs.Prelude.{◌≡◌, ◌==◌, ◌&&◌, ◌++◌, length, map, OnOk};
ghost use Rattle.ncc_schema.specs.Schema.{Sound};
ghost use Rattle.ncc_layout.specs.Sizes.{record_vars, slab};
ghost use Rattle.ncc_write.specs.VarSlabs.{slabs_of_kind, var_slab_for};

use crate::var_slab::{VarSlab, var_slab_of};
use ncc_schema::{Schema, is_record_var};
use std::alloc::AllocError;

/// How many record variables there are.
pub(crate) fn record_variables(schema: &Schema) -> usize
    requires { Sound schema.now }
    ensures { result ≡ length (record_vars schema.now.dims schema.now.vars) }
{
    let mut count = 0;
    for var in schema.vars.as_slice() {
        if is_record_var(schema.dims.as_slice(), var) {
            count += 1;
        }
    }
    count
}

/// Adds the `VarSlab`s of the record variables, or those of the fixed ones.
pub(crate) fn add_var_slabs(
    var_slabs: &mut Vec<VarSlab>,
    schema: &Schema,
    slabs: &[u64],
    records: bool,
    lone: bool,
) -> Result<(), AllocError>
    requires sound { Sound schema.now }
    requires slabs { slabs.now ≡ map (slab schema.now.dims) schema.now.vars }
    requires lone { lone ≡ records && (length (record_vars schema.now.dims schema.now.vars) == 1) }
    ensures { OnOk result (var_slabs.new.items
        ≡ var_slabs.old.items ++ map (var_slab_for schema.now) (slabs_of_kind schema.now records)) }
{
    let vars = schema.vars.as_slice();
    for number in 0..vars.len() {
        if is_record_var(schema.dims.as_slice(), &vars[number]) == records {
            var_slabs.push(var_slab_of(schema, number, slabs[number], lone))?;
        }
    }
    Ok(())
}
