//! Which selections are refused.

ghost use Rattle.std.specs.Prelude.{◌≡◌, ◌==◌, length};
ghost use Rattle.std.specs.List.{position_from};
ghost use Rattle.ncc_layout.specs.Placed.{vars_of};
ghost use Rattle.ncc_slab.specs.Refusals.{along, has_zero_stride, ends_past, is_outside, shape_fault, slab_fault};

use crate::fault::SlabFault;
use crate::slab::Slab;
use ncc_layout::Placed;

/// Is the last index not below the length or, where none is selected, the start above it?
fn ends_past(room: u64, start: u64, count: u64, stride: u64) -> bool
    ensures { result ≡ ends_past room start count stride }
{
    if count == 0 {
        return start > room;
    }
    start as u128 + (count - 1) as u128 * stride as u128 >= room as u128
}

/// The first dimension with a stride of 0.
fn first_zero_stride(stride: &[u64]) -> Option<usize>
    ensures { result ≡ position_from (λ d. d == 0) 0 stride.now }
{
    stride.iter().position(|stride| *stride == 0)
}

/// The first dimension along which the selection isn't inside.
fn first_outside(lengths: &[u64], start: &[u64], count: &[u64], stride: &[u64]) -> Option<usize>
    requires starts { length start.now ≡ length lengths.now }
    requires counts { length count.now ≡ length lengths.now }
    requires strides { length stride.now ≡ length lengths.now }
    ensures { result ≡ position_from is_outside 0 (along lengths.now start.now count.now stride.now) }
{
    for k in 0..lengths.len() {
        if ends_past(lengths[k], start[k], count[k], stride[k]) {
            return Some(k);
        }
    }
    None
}

/// Why a selection in a shape is refused, if it is.
pub fn shape_fault(lengths: &[u64], slab: &Slab) -> Option<SlabFault>
    ensures { result ≡ shape_fault lengths.now slab.now }
{
    let start = slab.start.as_slice();
    let count = slab.count.as_slice();
    let stride = slab.stride.as_slice();
    let rank = lengths.len();
    if start.len() != rank || count.len() != rank || stride.len() != rank {
        return Some(SlabFault::RankMismatch);
    }
    match first_zero_stride(stride) {
        Some(k) => Some(SlabFault::ZeroStride(k)),
        None => {
            let k = first_outside(lengths, start, count, stride)?;
            Some(SlabFault::Outside(k))
        }
    }
}

/// Why a selection of the variable with this number is refused, if it is.
pub fn slab_fault(placed: &Placed, var: usize, slab: &Slab) -> Option<SlabFault>
    ensures { result ≡ slab_fault (vars_of placed.now) var slab.now }
{
    if var >= placed.vars().len() {
        return Some(SlabFault::NoVariable);
    }
    shape_fault(placed.shape(var), slab)
}
