//! The stretches of a selection, which a caller reads from wherever its file is.

ghost use Rattle.std.specs.Prelude.{◌≡◌, ◌++◌, ◌+◌, ◌<◌, ◌≤◌, ◌^◌, ℕ, length, IfSome, IfOk, OnOk};
ghost use Rattle.std.proofs.Props.{props};
ghost use Rattle.ncc_layout.specs.Sizes.{product};
ghost use Rattle.ncc_slab.specs.Axes.{ArePositive, axes_of};
ghost use Rattle.std.specs.List.{AllByRecursion};
ghost use Rattle.ncc_slab.specs.Grids.{grid_count, grid_places, EndBy, IsDenseFrom, IsRun};
ghost use Rattle.ncc_ranges.specs.Steps.{places_by};

use crate::fault::RangeFault;
use crate::steps::{Steps, steps_of};
use ncc_layout::PlacedVar;
use ncc_slab::{Axis, Grid, Run, Slab, stretch};
use std::alloc::{AllocError, Global};

/// Elements that lie one after another: the place of the first, and how many.
#[repr(C)]
#[derive(Clone, Copy, Debug, PartialEq, Eq)]
pub struct Stretch {
    pub place: u64,
    pub count: u64,
}

/// The stretches of a selection that are left.
#[derive(Drop)]
pub struct SlabRuns {
    grid: Grid,
    size: u64,
    next: u64,
    file_length: u64,
    /// How far apart elements along the last axis lie, and the first axis from which on all do.
    step: u64,
    dense: Option<usize>,
    /// The next elements, where any are left.
    ahead: Run,
    ghost within: { next ≤ grid.count },
    ghost ends: { EndBy file_length size grid },
    ghost dense_is: { IfSome dense (IsDenseFrom step grid) } by { Prim.hlevel props },
    ghost ahead_is: { next < grid.count → IsRun step grid next ahead },
    ghost ahead_within: { next < grid.count → next + ahead.count ≤ grid.count },
}

/// The elements from the n-th on that surely lie as far apart as along the axes from `dense` on, where any are left.
fn elements_ahead(grid: &Grid, dense: Option<usize>, step: u64, n: u64) -> Run
    requires { IfSome dense (IsDenseFrom step grid.now) }
    ensures run { n < grid_count grid.now → IsRun step grid.now n result }
    ensures within { n < grid_count grid.now → n + result.count ≤ grid_count grid.now }
{
    let count = grid.count();
    if n < count {
        return grid.run(dense, n, count - n);
    }
    Run { place: 0, count: 0 }
}

/// The axes of dimensions of so many indices that lie so many bytes apart.
fn axes_by(alloc: Global, count: &[u64], steps: &[u64], total: u64) -> Result<Vec<Axis>, AllocError>
    requires counts { ArePositive count.now }
    requires ranks { length steps.now ≡ length count.now }
    requires total { total ≡ product count.now }
    ensures { IfOk result (λ axes. axes.items ≡ axes_of count.now steps.now) }
{
    let mut axes = Vec::new(alloc);
    let mut width = total;
    for k in 0..count.len() {
        width /= count[k];
        if count[k] != 1 {
            axes.push(Axis {
                step: steps[k],
                width,
            })?;
        }
    }
    Ok(axes)
}

/// The grid of elements that lie by these steps.
fn grid_by(alloc: Global, found: &Steps, slab: &Slab) -> Result<Grid, AllocError>
    requires total { found.now.total ≡ product slab.now.count }
    requires ranks { length found.now.steps.items ≡ length slab.now.count }
    requires fits { AllByRecursion (λ place. place < 2 ^ 64)
        (places_by found.now.base found.now.steps.items slab.now.count) }
    ensures { IfOk result (λ g. grid_places g
        ≡ places_by found.now.base found.now.steps.items slab.now.count) }
{
    if found.total == 0 {
        return Ok(Grid::new(found.base, Vec::new(alloc), 0));
    }
    let count = slab.count.as_slice();
    let axes = axes_by(alloc, count, found.steps.as_slice(), found.total)?;
    Ok(Grid::new(found.base, axes, found.total))
}

impl SlabRuns {
    ghost use Rattle.std.specs.Prelude.{[], drop, take, MatchOption};
    ghost use Rattle.ncc_slab.specs.Selected.{places_of};
    ghost use Rattle.ncc_ranges.specs.Steps.{RangesAs};
    ghost use Rattle.ncc_ranges.specs.Runs.{runs_left, runs_size, runs_all, AreSome, LeavesBehind, StopsBefore, places_in, AreLongest, BeginsRuns};

    /// The stretches of a selection of a variable that has these numbers, after so many of its elements. It is refused
    /// as `steps_of` refuses it.
    pub fn new(
        alloc: Global,
        record_size: u64,
        file_length: u64,
        var: &PlacedVar,
        slab: &Slab,
        first: u64,
    ) -> Result<SlabRuns, RangeFault>
        ensures { RangesAs record_size file_length var.now slab.now
            (BeginsRuns record_size file_length var.now slab.now first) result }
    {
        let found = steps_of(alloc, record_size, file_length, var, slab)?;
        let grid = grid_by(alloc, &found, slab)?;
        let size = var.xtype.size() as u64;
        let next = first.min(grid.count());
        let step = grid.step();
        let dense = grid.dense_from(step);
        let ahead = elements_ahead(&grid, dense, step, next);
        Ok(SlabRuns {
            grid,
            size,
            next,
            file_length,
            step,
            dense,
            ahead,
        })
    }

    /// The number of the next element: those from it on are left.
    pub fn at(&self) -> u64
        ensures left { runs_left self.now ≡ drop result (runs_all self.now) }
        ensures most { result ≤ length (runs_all self.now) }
    {
        self.next
    }

    /// How many elements the selection has.
    pub fn count(&self) -> u64
        ensures { result ≡ length (runs_all self.now) }
    {
        self.grid.count()
    }

    /// The next stretch, as long as its elements adjoin; None exactly where none is left.
    pub fn next_stretch(&mut self) -> Option<Stretch>
        ensures left { MatchOption result (runs_left self.old ≡ [])
            (LeavesBehind (runs_size self.old) (runs_left self.old) (runs_left self.new)) }
        ensures longest { IfSome result (StopsBefore (runs_size self.old) (runs_left self.new)) }
        ensures size { runs_size self.new ≡ runs_size self.old }
        ensures all { runs_all self.new ≡ runs_all self.old }
        ensures none { MatchOption result (runs_left self.new ≡ runs_left self.old) (λ s. 0 < s.count) }
    {
        let left = self.grid.count() - self.next;
        if left == 0 {
            return None;
        }
        let ahead = self.ahead;
        let place = ahead.place;
        if self.step != self.size && ahead.count > 1 {
            // The first of these is followed by one that doesn't adjoin.
            self.next += 1;
            self.ahead = Run {
                place: place + self.step,
                count: ahead.count - 1,
            };
            return Some(Stretch { place, count: 1 });
        }
        let (count, next) = stretch(
            &self.grid, self.dense, self.step, self.size, self.next, ahead, left,
        );
        self.next += count;
        self.ahead = next;
        Some(Stretch { place, count })
    }

    /// Puts the next stretches, as many as there is room for or as are left, and tells how many.
    pub fn put(&mut self, out: &mut [Stretch]) -> usize
        ensures most { result ≤ length out.new }
        ensures some { AreSome (take result out.new) }
        ensures left { runs_left self.old
            ≡ places_in (runs_size self.old) (take result out.new) ++ runs_left self.new }
        ensures longest { AreLongest (runs_size self.old) (runs_left self.new) (take result out.new) }
        ensures whole { result < length out.new → runs_left self.new ≡ [] }
        ensures size { runs_size self.new ≡ runs_size self.old }
        ensures all { runs_all self.new ≡ runs_all self.old }
    {
        for k in 0..out.len() {
            match self.next_stretch() {
                Some(found) => out[k] = found,
                None => return k,
            }
        }
        out.len()
    }
}
