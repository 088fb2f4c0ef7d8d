//! The bytes of a record.

ghost use Rattle.std.specs.Prelude.{◌≡◌, ◌+◌, ◌*◌, ◌<◌, ◌≤◌, ◌++◌, length, get_or, replicate, take, Some, IfErr, IfOk, OnOk};
ghost use Rattle.std.specs.List.{AllByRecursion, concat};
ghost use Rattle.ncc_values.specs.Values.{AreInRange, bytes_of, count_of, type_of};
ghost use Rattle.ncc_values.specs.XType.{size_of};
ghost use Rattle.ncc_layout.specs.Sizes.{record_size_of, slab};
ghost use Rattle.ncc_build.specs.Dataset.{IsSlabOf};
ghost use Rattle.ncc_build.specs.File.{is_lone};
ghost use Rattle.ncc_write.specs.Records.{HasSizes, IsRecord, bytes_of_record, fits_slab, whole_size, with_padding, wrong_at};
ghost use Rattle.ncc_write.specs.VarSlabs.{no_var, var_slab_fill, var_slab_for};

use crate::all_var_slabs::record_variables;
use crate::putting::{fill_at, put_at};
use crate::var_slab::{VarSlab, var_slab_of};
use ncc_build::values_in_range;
use ncc_layout::Placed;
use ncc_schema::{Schema, Var, is_record_var};
use ncc_values::Values;
use std::alloc::{AllocError, Global};

/// Says of the values of each slab that they are in the ranges of their types.
fn all_in_range(slabs: &[Values])
    ensures { AllByRecursion AreInRange slabs.now }
{
    for slab in slabs {
        values_in_range(slab);
    }
}

/// Are these as many values of its type as a slab of the variable has? The slab has so many bytes.
fn fits_slab(schema: &Schema, var: &Var, bytes: u64, values: &Values) -> bool
    requires bytes { bytes ≡ slab schema.now.dims var.now }
    ensures { result ≡ fits_slab schema.now.dims var.now values.now }
{
    values.xtype() == var.xtype && values.len() as u64 == bytes / var.xtype.size() as u64
}

/// The number of the first record variable for which the slabs don't fit.
fn wrong_at(schema: &Schema, placed: &Placed, slabs: &[Values]) -> Option<usize>
    requires sizes { HasSizes schema.now placed.now }
    ensures { result ≡ wrong_at schema.now slabs.now }
{
    let vars = schema.vars.as_slice();
    let mut done = 0;
    for number in 0..vars.len() {
        let var = &vars[number];
        if is_record_var(schema.dims.as_slice(), var) {
            if done == slabs.len() || !fits_slab(schema, var, placed.slab(number), &slabs[done]) {
                return Some(done);
            }
            done += 1;
        }
    }
    if done < slabs.len() {
        return Some(done);
    }
    None
}

/// Whether the slabs are those of a record.
pub(crate) fn judge_slabs(schema: &Schema, placed: &Placed, slabs: &[Values]) -> Result<(), usize>
    requires sizes { HasSizes schema.now placed.now }
    ensures fits { OnOk result (IsRecord schema.now slabs.now) }
    ensures wrong { IfErr result (λ k. wrong_at schema.now slabs.now ≡ Some k) }
{
    all_in_range(slabs);
    match wrong_at(schema, placed, slabs) {
        Some(number) => Err(number),
        None => Ok(()),
    }
}

/// Puts a slab and its padding into the image, from a place on, and tells where they end.
fn put_slab(image: &mut [u8], place: usize, var_slab: VarSlab, values: &Values) -> usize
    requires { place + count_of values.now * size_of (type_of values.now)
        + var_slab.padding * length (var_slab_fill var_slab)
        ≤ length image.old }
    ensures end { result
        ≡ place + count_of values.now * size_of (type_of values.now) + var_slab.padding * length (var_slab_fill var_slab) }
    ensures bytes { take result image.new
        ≡ take place image.old ++ (bytes_of values.now ++ concat (replicate var_slab.padding (var_slab_fill var_slab))) }
    ensures room { length image.new ≡ length image.old }
{
    let end = put_at(image, place, values, 0, values.len());
    fill_at(image, end, var_slab.fill(), var_slab.padding as usize)
}

/// What is put for the slab of a record variable, which is padded unless it is the lone one.
pub(crate) fn var_slab_in(schema: &Schema, placed: &Placed, number: usize, lone: bool) -> VarSlab
    requires there { number < length schema.now.vars }
    requires sizes { HasSizes schema.now placed.now }
    requires lone { lone ≡ is_lone schema.now (get_or schema.now.vars number no_var) }
    ensures { let var = get_or schema.now.vars number no_var in
        result ≡ var_slab_for schema.now (record { var = var; number = number; in_record = 0 }) }
{
    var_slab_of(schema, number, placed.slab(number), lone)
}

/// Puts the slab of a record variable and its padding into the image, from a place on, and tells where they end.
fn put_slab_of(
    image: &mut [u8],
    place: usize,
    schema: &Schema,
    placed: &Placed,
    number: usize,
    lone: bool,
    values: &Values,
) -> usize
    requires there { number < length schema.now.vars }
    requires sizes { HasSizes schema.now placed.now }
    requires lone { lone ≡ is_lone schema.now (get_or schema.now.vars number no_var) }
    requires fits { IsSlabOf schema.now.dims (get_or schema.now.vars number no_var) values.now }
    requires room { place + whole_size schema.now (get_or schema.now.vars number no_var) ≤ length image.old }
    ensures end { result ≡ place + whole_size schema.now (get_or schema.now.vars number no_var) }
    ensures bytes { take result image.new
        ≡ take place image.old ++ with_padding schema.now (get_or schema.now.vars number no_var, values.now) }
    ensures room { length image.new ≡ length image.old }
{
    put_slab(
        image,
        place,
        var_slab_in(schema, placed, number, lone),
        values,
    )
}

/// Puts the slabs of a record into the image, one after another.
fn put_slabs(image: &mut [u8], schema: &Schema, placed: &Placed, slabs: &[Values])
    requires sizes { HasSizes schema.now placed.now }
    requires fits { IsRecord schema.now slabs.now }
    requires room { length image.old ≡ record_size_of schema.now }
    ensures { image.new ≡ bytes_of_record schema.now slabs.now }
{
    let vars = schema.vars.as_slice();
    let lone = record_variables(schema) == 1;
    let mut done = 0;
    let mut end = 0;
    for number in 0..vars.len() {
        if is_record_var(schema.dims.as_slice(), &vars[number]) {
            end = put_slab_of(image, end, schema, placed, number, lone, &slabs[done]);
            done += 1;
        }
    }
}

/// The bytes of a record.
pub(crate) fn image_of(
    alloc: Global,
    schema: &Schema,
    placed: &Placed,
    slabs: &[Values],
) -> Result<Vec<u8>, AllocError>
    requires sizes { HasSizes schema.now placed.now }
    requires fits { IsRecord schema.now slabs.now }
    ensures { IfOk result (λ image. image.items ≡ bytes_of_record schema.now slabs.now) }
{
    let mut image = vec![in alloc; 0; placed.record_size() as usize]?;
    put_slabs(image.as_mut_slice(), schema, placed, slabs);
    Ok(image)
}
