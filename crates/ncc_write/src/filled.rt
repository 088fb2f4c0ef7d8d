//! Records of fill values.

ghost use Rattle.std.specs.Prelude.{◌≡◌, ◌*◌, ◌<◌, ◌≤◌, length, get_or, replicate, IfOk, OnOk};
ghost use Rattle.std.specs.List.{concat};
ghost use Rattle.ncc_values.specs.Values.{type_of, values_of, with_bytes};
ghost use Rattle.ncc_values.specs.XType.{size_of};
ghost use Rattle.ncc_check.specs.Files.{schema_of};
ghost use Rattle.ncc_write.specs.Records.{HasSizes, bytes_of_record, fill_values};
ghost use Rattle.ncc_write.specs.VarSlabs.{var_slab_fill};

use crate::all_var_slabs::record_variables;
use crate::image::{image_of, var_slab_in};
use crate::laws::adding::fills_are_a_record;
use crate::laws::open_file_has_sizes;
use crate::putting::fill_at;
use crate::var_slab::VarSlab;
use ncc_check::NcFile;
use ncc_layout::Placed;
use ncc_schema::{Schema, is_record_var};
use ncc_store::Store;
use ncc_values::Values;
use std::alloc::{AllocError, Global};

/// How many fill values are added at once.
const AT_ONCE: usize = 512;

/// The bytes of so many of any type.
const ROOM: usize = 8 * AT_ONCE;

/// Adds so many fill values, whose bytes are put into the buffer first.
fn add_fills(
    values: &mut Values,
    buffer: &mut [u8],
    fill: &[u8],
    count: usize,
) -> Result<(), AllocError>
    requires size { length fill.now ≡ size_of (type_of values.old) }
    requires room { count * length fill.now ≤ length buffer.old }
    ensures ok { OnOk result (values.new ≡ with_bytes values.old (concat (replicate count fill.now))) }
    ensures room { length buffer.new ≡ length buffer.old }
{
    let end = fill_at(buffer, 0, fill, count);
    values.push_from(&buffer[..end])
}

/// A slab of fill values.
fn fill_slab(
    alloc: Global,
    var_slab: VarSlab,
    buffer: &mut [u8; ROOM],
) -> Result<Values, AllocError>
    ensures { IfOk result
        (λ values. values ≡ values_of var_slab.xtype (concat (replicate var_slab.elements (var_slab_fill var_slab)))) }
{
    let mut values = Values::new(alloc, var_slab.xtype);
    let mut done = 0;
    while done < var_slab.elements {
        let count = (var_slab.elements - done).min(AT_ONCE as u64);
        add_fills(&mut values, buffer, var_slab.fill(), count as usize)?;
        done += count;
    }
    Ok(values)
}

/// A slab of fill values for each record variable.
fn fill_slabs(alloc: Global, schema: &Schema, placed: &Placed) -> Result<Vec<Values>, AllocError>
    requires sizes { HasSizes schema.now placed.now }
    ensures { IfOk result (λ slabs. slabs.items ≡ fill_values schema.now) }
{
    let vars = schema.vars.as_slice();
    let lone = record_variables(schema) == 1;
    let mut buffer = [0; ROOM];
    let mut slabs = Vec::new(alloc);
    for number in 0..vars.len() {
        if is_record_var(schema.dims.as_slice(), &vars[number]) {
            let var_slab = var_slab_in(schema, placed, number, lone);
            slabs.push(fill_slab(alloc, var_slab, &mut buffer)?)?;
        }
    }
    Ok(slabs)
}

/// A record of fill values for the file: for each record variable, in header order, as many as its slab has elements.
pub fn fill_record<S: Store>(alloc: Global, file: &NcFile<S>) -> Result<Vec<Values>, AllocError>
    ensures { IfOk result (λ slabs. slabs.items ≡ fill_values (schema_of file.now)) }
{
    open_file_has_sizes(file);
    fill_slabs(alloc, file.schema(), file.placed())
}

/// The bytes of a record of fill values.
pub(crate) fn fill_image<S: Store>(alloc: Global, file: &NcFile<S>) -> Result<Vec<u8>, AllocError>
    ensures { IfOk result
        (λ image. image.items ≡ bytes_of_record (schema_of file.now) (fill_values (schema_of file.now))) }
{
    open_file_has_sizes(file);
    fills_are_a_record();
    let slabs = fill_record(alloc, file)?;
    image_of(alloc, file.schema(), file.placed(), slabs.as_slice())
}
