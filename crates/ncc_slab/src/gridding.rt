//! The grid of a selection.

ghost use Rattle.std.specs.Prelude.{◌≡◌, ◌++◌, ◌<◌, ◌≤◌, ◌*◌, ◌-◌, ◌^◌, None, false, true, MatchBool, IfOk, OnOk};
ghost use Rattle.ncc_values.specs.XType.{size_of};
ghost use Rattle.ncc_layout.specs.Sizes.{product};
ghost use Rattle.ncc_layout.specs.Elements.{var_at};
ghost use Rattle.ncc_layout.specs.Placed.{file_length_of, record_size_of_file, vars_of};
ghost use Rattle.ncc_slab.specs.Answers.{SelectsAs};
ghost use Rattle.ncc_slab.specs.Axes.{ArePositive, HasRank, SelectsSome, axes_of, base_of, dot, inner_units, last_of, selection_axes, times};
ghost use Rattle.ncc_slab.specs.Grids.{grid_places, EndBy};
ghost use Rattle.ncc_slab.specs.Refusals.{slab_fault};
ghost use Rattle.ncc_slab.specs.Selected.{places_of};

use crate::axis::Axis;
use crate::fault::SlabFault;
use crate::grid::Grid;
use crate::refusing::slab_fault;
use crate::slab::Slab;
use ncc_layout::Placed;
use ncc_layout::laws::{placed_file_keeps_all_rules, placed_file_keeps_elements_apart};
use std::alloc::{AllocError, Global};

/// Is none of the numbers 0?
fn are_positive(numbers: &[u64]) -> bool
    ensures { MatchBool result (ArePositive numbers.now) (product numbers.now ≡ 0) }
{
    for k in 0..numbers.len() {
        if numbers[k] == 0 {
            return false;
        }
    }
    true
}

/// The product of numbers, where it fits.
fn product(numbers: &[u64]) -> u64
    requires positive { ArePositive numbers.now }
    requires fits { product numbers.now < 2 ^ 64 }
    ensures { result ≡ product numbers.now }
{
    let mut product = 1;
    for k in 0..numbers.len() {
        product *= numbers[k];
    }
    product
}

/// The length of a file is one of the machine's numbers.
pub fn length_fits(placed: &Placed)
    ensures { file_length_of placed.now < 2 ^ 64 }
{
    let _length = placed.file_length();
}

/// Adds the axes of dimensions along which elements of this size lie row-major, and tells how far the
/// first selected element lies from the first one.
fn add_axes(
    axes: &mut Vec<Axis>,
    lengths: &[u64],
    start: &[u64],
    count: &[u64],
    stride: &[u64],
    size: u64,
) -> Result<u64, AllocError>
    requires ranks { HasRank lengths.now start.now count.now stride.now }
    requires lengths { ArePositive lengths.now }
    requires counts { ArePositive count.now }
    requires bytes { product lengths.now * size < 2 ^ 64 }
    requires elements { product count.now < 2 ^ 64 }
    requires size { 0 < size }
    requires last { dot (inner_units size lengths.now) (last_of start.now count.now stride.now) < 2 ^ 64 }
    ensures offset { IfOk result (λ n. n ≡ dot (inner_units size lengths.now) start.now) }
    ensures axes { OnOk result (axes.new.items
        ≡ axes.old.items ++ axes_of count.now (times (inner_units size lengths.now) stride.now)) }
{
    let mut unit = product(lengths) * size;
    let mut width = product(count);
    let mut offset = 0;
    for k in 0..lengths.len() {
        unit /= lengths[k];
        width /= count[k];
        offset += start[k] * unit;
        if count[k] != 1 {
            axes.push(Axis {
                step: stride[k] * unit,
                width,
            })?;
        }
    }
    Ok(offset)
}

/// Adds the axes of a selection of a fixed variable, and tells the place of its first element.
fn fixed_axes(
    axes: &mut Vec<Axis>,
    placed: &Placed,
    var: usize,
    slab: &Slab,
) -> Result<u64, AllocError>
    requires some { SelectsSome placed.now var slab.now }
    requires kind { (var_at (vars_of placed.now) var).extent.is_record ≡ false }
    ensures base { IfOk result (λ n. n
        ≡ base_of (record_size_of_file placed.now) (var_at (vars_of placed.now) var) slab.now) }
    ensures axes { OnOk result (axes.new.items ≡ axes.old.items
        ++ selection_axes (record_size_of_file placed.now) (var_at (vars_of placed.now) var) slab.now) }
{
    placed_file_keeps_all_rules();
    placed_file_keeps_elements_apart();
    length_fits(placed);
    let start = slab.start.as_slice();
    let count = slab.count.as_slice();
    let stride = slab.stride.as_slice();
    let size = placed.xtype(var).size() as u64;
    let offset = add_axes(axes, placed.shape(var), start, count, stride, size)?;
    Ok(placed.begin(var) + offset)
}

/// Adds the axes of a selection of a record variable, of which the first has a step of whole records, and
/// tells the place of its first element.
fn record_axes(
    axes: &mut Vec<Axis>,
    placed: &Placed,
    var: usize,
    slab: &Slab,
) -> Result<u64, AllocError>
    requires some { SelectsSome placed.now var slab.now }
    requires kind { (var_at (vars_of placed.now) var).extent.is_record ≡ true }
    ensures base { IfOk result (λ n. n
        ≡ base_of (record_size_of_file placed.now) (var_at (vars_of placed.now) var) slab.now) }
    ensures axes { OnOk result (axes.new.items ≡ axes.old.items
        ++ selection_axes (record_size_of_file placed.now) (var_at (vars_of placed.now) var) slab.now) }
{
    placed_file_keeps_all_rules();
    placed_file_keeps_elements_apart();
    length_fits(placed);
    let start = slab.start.as_slice();
    let count = slab.count.as_slice();
    let stride = slab.stride.as_slice();
    let record_size = placed.record_size();
    let (_, lengths_inside) = placed.shape(var).split_at(1);
    let (_, start_inside) = start.split_at(1);
    let (_, count_inside) = count.split_at(1);
    let (_, stride_inside) = stride.split_at(1);
    if count[0] != 1 {
        axes.push(Axis {
            step: stride[0] * record_size,
            width: product(count_inside),
        })?;
    }
    let size = placed.xtype(var).size() as u64;
    let offset = add_axes(
        axes,
        lengths_inside,
        start_inside,
        count_inside,
        stride_inside,
        size,
    )?;
    Ok(placed.begin(var) + start[0] * record_size + offset)
}

/// Adds the axes of a selection, and tells the place of its first element.
fn selected_axes(
    axes: &mut Vec<Axis>,
    placed: &Placed,
    var: usize,
    slab: &Slab,
) -> Result<u64, AllocError>
    requires { SelectsSome placed.now var slab.now }
    ensures base { IfOk result (λ n. n
        ≡ base_of (record_size_of_file placed.now) (var_at (vars_of placed.now) var) slab.now) }
    ensures axes { OnOk result (axes.new.items ≡ axes.old.items
        ++ selection_axes (record_size_of_file placed.now) (var_at (vars_of placed.now) var) slab.now) }
{
    if placed.is_record(var) {
        record_axes(axes, placed, var, slab)
    } else {
        fixed_axes(axes, placed, var, slab)
    }
}

/// The grid of a selection that isn't refused.
fn grid_in(alloc: Global, placed: &Placed, var: usize, slab: &Slab) -> Result<Grid, AllocError>
    requires { slab_fault (vars_of placed.now) var slab.now ≡ None }
    ensures { IfOk result (λ g. grid_places g
        ≡ places_of (record_size_of_file placed.now) (var_at (vars_of placed.now) var) slab.now) }
{
    placed_file_keeps_all_rules();
    placed_file_keeps_elements_apart();
    length_fits(placed);
    let count = slab.count.as_slice();
    let mut axes = Vec::new(alloc);
    if !are_positive(count) {
        return Ok(Grid::new(0, axes, 0));
    }
    let base = selected_axes(&mut axes, placed, var, slab)?;
    Ok(Grid::new(base, axes, product(count)))
}

/// The grid of a selection, unless it is refused, before any memory is asked for.
pub fn grid_of(alloc: Global, placed: &Placed, var: usize, slab: &Slab) -> Result<Grid, SlabFault>
    ensures places { SelectsAs (vars_of placed.now) var slab.now (λ g. grid_places g
        ≡ places_of (record_size_of_file placed.now) (var_at (vars_of placed.now) var) slab.now) result }
    ensures ends { IfOk result
        (EndBy (file_length_of placed.now) (size_of (var_at (vars_of placed.now) var).xtype)) }
{
    placed_file_keeps_elements_apart();
    match slab_fault(placed, var, slab) {
        Some(fault) => Err(fault),
        None => match grid_in(alloc, placed, var, slab) {
            Ok(grid) => Ok(grid),
            Err(_) => Err(SlabFault::Memory),
        },
    }
}
