//! The steps of a selection.

ghost use Rattle.std.specs.Prelude.{◌≡◌, ◌==◌, [], ◌∷◌, ◌++◌, ◌+◌, ◌*◌, ◌<◌, ◌≤◌, ◌^◌, length, true, false, None, IsTrue, IfOk, OnOk, MatchBool, replicate};
ghost use Rattle.std.specs.List.{AllByRecursion, position_from};
ghost use Rattle.ncc_layout.specs.Sizes.{product};
ghost use Rattle.ncc_values.specs.XType.{size_of};
ghost use Rattle.ncc_slab.specs.Axes.{ArePositive, HasRank, inner_units, times, dot, last_of, units_of};
ghost use Rattle.ncc_slab.specs.Refusals.{along, Fits as FitsAlong, FitsIn};
ghost use Rattle.ncc_ranges.specs.Steps.{FindsSteps, FitsFile, HasAll, HasNone, LiesFar, OrNotInFile, RangesAs, ReachesAll, ReachesAs, all_steps_of, steps_along};

use crate::fault::RangeFault;
use crate::products::product_times;
use crate::reach::Reach;
use ncc_layout::PlacedVar;
use ncc_slab::{Slab, shape_fault};
use std::alloc::{AllocError, Global};

/// Where the elements of a selection lie: the first at `base`, and along each dimension the next one so many bytes
/// further. Where nothing is selected the base is the variable's begin, and all steps are 0.
#[derive(Drop)]
pub struct Steps {
    pub base: u64,
    /// How many elements are selected.
    pub total: u64,
    pub steps: Vec<u64>,
}

/// Adds a step.
fn push(steps: &mut Vec<u64>, step: u64) -> Result<(), AllocError>
    ensures { OnOk result (steps.new.items ≡ steps.old.items ++ step ∷ []) }
{
    steps.push(step)?;
    Ok(())
}

/// Adds the steps along dimensions whose elements lie row-major in so many bytes.
fn add_steps(
    steps: &mut Vec<u64>,
    reach: Reach,
    lengths: &[u64],
    start: &[u64],
    count: &[u64],
    stride: &[u64],
    bytes: u64,
    size: u64,
) -> Result<Reach, RangeFault>
    requires ranks { HasRank lengths.now start.now count.now stride.now }
    requires lengths { ArePositive lengths.now }
    requires counts { ArePositive count.now }
    requires fits { AllByRecursion FitsAlong (along lengths.now start.now count.now stride.now) }
    requires bytes { bytes ≡ product lengths.now * size }
    ensures reach { ReachesAs size lengths.now start.now count.now stride.now reach.first reach.last result }
    ensures steps { OnOk result (steps.new.items
        ≡ steps.old.items ++ steps_along count.now (times (inner_units size lengths.now) stride.now)) }
{
    let mut unit = bytes;
    let mut reach = reach;
    for k in 0..lengths.len() {
        unit /= lengths[k];
        let Some((more, step)) = reach.further(unit, start[k], count[k], stride[k]) else {
            return Err(RangeFault::NotInFile);
        };
        push(steps, step)?;
        reach = more;
    }
    Ok(reach)
}

/// The same of dimensions of these lengths, unless they have 2^64 bytes or more.
fn inner_steps(
    steps: &mut Vec<u64>,
    reach: Reach,
    lengths: &[u64],
    start: &[u64],
    count: &[u64],
    stride: &[u64],
    size: u64,
) -> Result<Reach, RangeFault>
    requires ranks { HasRank lengths.now start.now count.now stride.now }
    requires lengths { ArePositive lengths.now }
    requires counts { ArePositive count.now }
    requires fits { AllByRecursion FitsAlong (along lengths.now start.now count.now stride.now) }
    requires size { 0 < size }
    ensures reach { ReachesAs size lengths.now start.now count.now stride.now reach.first reach.last result }
    ensures steps { OnOk result (steps.new.items
        ≡ steps.old.items ++ steps_along count.now (times (inner_units size lengths.now) stride.now)) }
{
    let Some(bytes) = product_times(lengths, size) else {
        return Err(RangeFault::NotInFile);
    };
    add_steps(steps, reach, lengths, start, count, stride, bytes, size)
}

/// The steps along all dimensions of a selection of some elements.
fn all_steps(
    steps: &mut Vec<u64>,
    record_size: u64,
    var: &PlacedVar,
    slab: &Slab,
) -> Result<Reach, RangeFault>
    requires fits { FitsIn var.now.shape slab.now }
    requires some { ArePositive slab.now.count }
    ensures reach { OrNotInFile (ReachesAll record_size var.now slab.now)
        (LiesFar record_size var.now slab.now) result }
    ensures steps { OnOk result (steps.new.items ≡ steps.old.items ++ all_steps_of record_size var.now slab.now) }
{
    let size = var.xtype.size() as u64;
    let lengths = var.shape.as_slice();
    let (start, count) = (slab.start.as_slice(), slab.count.as_slice());
    let stride = slab.stride.as_slice();
    let reach = Reach::none();
    if !var.extent.is_record {
        return inner_steps(steps, reach, lengths, start, count, stride, size);
    }
    if lengths.is_empty() {
        return Err(RangeFault::NotInFile);
    }
    let Some((reach, step)) = reach.further(record_size, start[0], count[0], stride[0]) else {
        return Err(RangeFault::NotInFile);
    };
    push(steps, step)?;
    inner_steps(
        steps,
        reach,
        &lengths[1..],
        &start[1..],
        &count[1..],
        &stride[1..],
        size,
    )
}

/// The steps of a selection of some elements.
fn some_steps(
    alloc: Global,
    record_size: u64,
    file_length: u64,
    var: &PlacedVar,
    slab: &Slab,
) -> Result<Steps, RangeFault>
    requires fits { FitsIn var.now.shape slab.now }
    requires some { ArePositive slab.now.count }
    ensures { OrNotInFile (HasAll record_size file_length var.now slab.now)
        (FitsFile record_size file_length var.now slab.now → ⊥) result }
{
    let Some(total) = product_times(slab.count.as_slice(), 1) else {
        return Err(RangeFault::NotInFile);
    };
    let mut steps = Vec::new(alloc);
    let reach = all_steps(&mut steps, record_size, var, slab)?;
    let begin = var.extent.begin;
    let size = var.xtype.size() as u128;
    if begin as u128 + reach.last as u128 + size > file_length as u128 {
        return Err(RangeFault::NotInFile);
    }
    Ok(Steps {
        base: begin + reach.first,
        total,
        steps,
    })
}

/// The steps of a selection of nothing.
fn no_steps(alloc: Global, var: &PlacedVar, slab: &Slab) -> Result<Steps, AllocError>
    requires fits { FitsIn var.now.shape slab.now }
    requires none { ArePositive slab.now.count → ⊥ }
    ensures { IfOk result (HasNone var.now) }
{
    let mut steps = Vec::new(alloc);
    for k in 0..var.shape.as_slice().len() {
        steps.push(0)?;
    }
    Ok(Steps {
        base: var.extent.begin,
        total: 0,
        steps,
    })
}

/// The first dimension with a count of 0.
fn first_without_index(count: &[u64]) -> Option<usize>
    ensures { result ≡ position_from (λ c. c == 0) 0 count.now }
{
    count.iter().position(|count| *count == 0)
}

/// The steps of a selection of a variable that has these numbers, in a file of this length whose records lie
/// `record_size` bytes apart. The selection is refused as `read_slab` refuses it. Where all its elements end in a file
/// of that length, as those of a file that passes do, its steps are found.
pub fn steps_of(
    alloc: Global,
    record_size: u64,
    file_length: u64,
    var: &PlacedVar,
    slab: &Slab,
) -> Result<Steps, RangeFault>
    ensures { RangesAs record_size file_length var.now slab.now
        (FindsSteps record_size file_length var.now slab.now) result }
{
    if let Some(fault) = shape_fault(var.shape.as_slice(), slab) {
        return Err(RangeFault::Refused(fault));
    }
    if let Some(_k) = first_without_index(slab.count.as_slice()) {
        return Ok(no_steps(alloc, var, slab)?);
    }
    some_steps(alloc, record_size, file_length, var, slab)
}
