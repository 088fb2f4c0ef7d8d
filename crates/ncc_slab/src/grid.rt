//! The places of a selection, each by its number.

ghost use Rattle.std.specs.Prelude.{◌≡◌, ◌+◌, ◌*◌, ◌/◌, ◌%◌, ◌<◌, ◌≤◌, ◌^◌, ℕ, length, IsTrue, IfSome};
ghost use Rattle.ncc_slab.specs.Axes.{place_at, places_from, AreWide};

use crate::axis::Axis;

/// The places of a selection: that of its first element, and an axis for each dimension with more than one
/// index, the last the fastest.
#[derive(Drop)]
pub struct Grid {
    base: u64,
    axes: Vec<Axis>,
    count: u64,
    ghost fits: { (n : ℕ) → n < count → place_at base axes.items n < 2 ^ 64 },
    ghost wide: { AreWide axes.items },
    ghost small: { count < 2 ^ 64 },
}

/// Elements at even distances: where the first lies, and how many they are.
#[derive(Clone, Copy)]
pub struct Run {
    pub place: u64,
    pub count: u64,
}

/// The index along an axis of this width, and the number among the elements that share it.
#[inline(always)]
fn index_along(number: u64, width: u64) -> (u64, u64)
    requires { 0 < width }
    ensures { (result.0 ≡ number / width) × (result.1 ≡ number % width) }
{
    // The last axis has this width, and a division by it takes as long as any.
    if width == 1 {
        return (number, 0);
    }
    (number / width, number % width)
}

impl Grid {
    ghost use Rattle.ncc_slab.specs.Grids.{grid_place, grid_count, grid_places, Adjoins, IsDenseFrom, IsRun};

    /// A grid of so many elements.
    pub fn new(base: u64, axes: Vec<Axis>, count: u64) -> Grid
        requires fits { (n : ℕ) → n < count → place_at base axes.items n < 2 ^ 64 }
        requires wide { AreWide axes.items }
        ensures { grid_places result ≡ places_from base axes.items 0 count }
    {
        Grid { base, axes, count }
    }

    /// How many elements are selected.
    pub fn count(&self) -> u64
        ensures { result ≡ grid_count self.now }
    {
        self.count
    }

    /// The place of the n-th selected element, row-major.
    pub fn place(&self, n: u64) -> u64
        requires { n < grid_count self.now }
        ensures { result ≡ grid_place self.now n }
    {
        let mut place = self.base;
        let mut number = n;
        for axis in &self.axes {
            place += number / axis.width * axis.step;
            number %= axis.width;
        }
        place
    }

    /// How far the indices of the last axis move a place.
    pub fn step(&self) -> u64 {
        match self.axes.last() {
            Some(axis) => axis.step,
            None => 0,
        }
    }

    /// Does an index of this axis move a place by this distance for each of the elements that share it? An index of the
    /// last axis does so only where each element has its own.
    fn adjoins(&self, axis: usize, size: u64) -> bool
        requires { axis < length self.now.axes.items }
        ensures { IsTrue result → Adjoins size self.now axis }
    {
        let Axis { step, width } = self.axes[axis];
        if axis + 1 == self.axes.len() && width != 1 {
            return false;
        }
        step as u128 == width as u128 * size as u128
    }

    /// The first axis from which on elements lie this far apart, where there is one.
    pub fn dense_from(&self, step: u64) -> Option<usize>
        ensures { IfSome result (IsDenseFrom step self.now) }
    {
        let mut from = self.axes.len();
        while from > 0 && self.adjoins(from - 1, step) {
            from -= 1;
        }
        if from == self.axes.len() {
            return None;
        }
        Some(from)
    }

    /// The elements from the n-th on that surely lie as far apart as along the axes from `dense` on, at most so many: all
    /// as far as no index changes along another axis.
    pub fn run(&self, dense: Option<usize>, n: u64, most: u64) -> Run
        requires there { n < grid_count self.now }
        requires some { 0 < most }
        ensures most { result.count ≤ most }
        ensures run { (step : ℕ) → IfSome dense (IsDenseFrom step self.now) → IsRun step self.now n result }
    {
        let Some(from) = dense else {
            return Run {
                place: self.place(n),
                count: 1,
            };
        };
        let mut place = self.base;
        let mut number = n;
        let mut count = most;
        for k in 0..self.axes.len() {
            let Axis { step, width } = self.axes[k];
            let (index, rest) = index_along(number, width);
            place += index * step;
            number = rest;
            if k < from {
                count = count.min(width - rest);
            }
        }
        Run { place, count }
    }
}
