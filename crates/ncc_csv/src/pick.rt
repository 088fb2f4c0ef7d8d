//! What a command line selects.

ghost use Rattle.std.specs.Prelude.{◌≡◌, ◌<◌, ℕ, replicate, unwrap_or, option_map, length, get_or, IfOk};
ghost use Rattle.std.specs.List.{position_from};
ghost use Rattle.ncc_slab.specs.Selection.{fitting_count};

use ncc_header::Seq;
use ncc_slab::{Slab, SlabFault};
use std::alloc::{AllocError, Global};

/// What is given of a selection.
#[derive(Debug, Drop, PartialEq, Eq)]
pub struct Pick {
    pub start: Option<Seq<u64>>,
    pub count: Option<Seq<u64>>,
    pub stride: Option<Seq<u64>>,
}

/// What is given, or else this number for each dimension.
fn given_or(
    alloc: Global,
    given: Option<Seq<u64>>,
    number: u64,
    rank: usize,
) -> Result<Seq<u64>, AllocError>
    ensures { IfOk result (λ numbers. numbers ≡ unwrap_or given (replicate rank number)) }
{
    match given {
        Some(numbers) => Ok(numbers),
        None => Ok(Seq::from_vec(vec![in alloc; number; rank]?)),
    }
}

/// How many indices fit along a dimension from `start` on, each `stride` past the one before it.
fn fitting(length: u64, start: u64, stride: u64) -> u64
    requires { 0 < stride }
    ensures { result ≡ fitting_count length start stride }
{
    if start < length {
        (length - start - 1) / stride + 1
    } else {
        0
    }
}

impl Pick {
    ghost use Rattle.ncc_csv.specs.Picks.{is_zero, suits, fitting_counts, pick_fault, PicksAs};

    /// As many indices as fit along each dimension.
    fn fitting_all(
        alloc: Global,
        lengths: &[u64],
        start: &[u64],
        stride: &[u64],
    ) -> Result<Seq<u64>, AllocError>
        requires starts { length start.now ≡ length lengths.now }
        requires strides { length stride.now ≡ length lengths.now }
        requires positive { (k : ℕ) → k < length stride.now → 0 < get_or stride.now k 0 }
        ensures { IfOk result (λ count. count ≡ fitting_counts lengths.now start.now stride.now) }
    {
        let mut count = Vec::new(alloc);
        for k in 0..lengths.len() {
            count.push(fitting(lengths[k], start[k], stride[k]))?;
        }
        Ok(Seq::from_vec(count))
    }

    /// Whether what is given is given for each dimension, and for no more.
    fn fits_rank(given: &Option<Seq<u64>>, rank: usize) -> bool
        ensures { result ≡ suits rank given.now }
    {
        match given {
            Some(numbers) => numbers.len() == rank,
            None => true,
        }
    }

    /// The place of the first number that is 0.
    fn first_zero(numbers: &[u64]) -> Option<usize>
        ensures { result ≡ position_from is_zero 0 numbers.now }
    {
        for (k, number) in numbers.iter().enumerate() {
            if *number == 0 {
                return Some(k);
            }
        }
        None
    }

    /// Why this is no selection in a shape of so many dimensions, whatever their lengths.
    fn fault(&self, rank: usize) -> Option<SlabFault>
        ensures { result ≡ pick_fault rank self.now }
    {
        if !(Pick::fits_rank(&self.start, rank)
            && Pick::fits_rank(&self.count, rank)
            && Pick::fits_rank(&self.stride, rank))
        {
            return Some(SlabFault::RankMismatch);
        }
        match &self.stride {
            Some(strides) => match Pick::first_zero(strides.as_slice()) {
                Some(dim) => Some(SlabFault::ZeroStride(dim)),
                None => None,
            },
            None => None,
        }
    }

    /// The selection in a shape. Where it isn't given the start is 0, the stride 1, and the count what fits.
    pub fn slab(self, alloc: Global, lengths: &[u64]) -> Result<Slab, SlabFault>
        ensures { PicksAs lengths.now self result }
    {
        if let Some(fault) = self.fault(lengths.len()) {
            return Err(fault);
        }
        let Pick {
            start,
            count,
            stride,
        } = self;
        let start = given_or(alloc, start, 0, lengths.len())?;
        let stride = given_or(alloc, stride, 1, lengths.len())?;
        let count = match count {
            Some(count) => count,
            None => Pick::fitting_all(alloc, lengths, start.as_slice(), stride.as_slice())?,
        };
        Ok(Slab {
            start,
            count,
            stride,
        })
    }
}
