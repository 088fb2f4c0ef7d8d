//! The stretches of a selection, by numbers.

ghost use Rattle.std.specs.Prelude.{◌≡◌};
ghost use Rattle.ncc_c.specs.Selecting.{FindsStretched, TellsStretches, no_stretches};

use crate::outcome::{Outcome, PASSES, of_range, outcome_of};
use crate::rows::VarRow;
use crate::selecting::var_of;
use ncc_layout::PlacedVar;
use ncc_ranges::{SlabRuns, Stretch};
use ncc_slab::Slab;
use std::alloc::Global;

/// What `ncc_stretches` answers: the bytes of an element, how many are selected, the number of the first one after
/// those written, and how many stretches were written.
#[repr(C)]
#[derive(Clone, Copy, Debug, PartialEq, Eq)]
pub struct Stretched {
    pub outcome: Outcome,
    pub size: u64,
    pub total: u64,
    pub next: u64,
    pub written: u64,
}

/// An answer with nothing but an outcome.
pub fn without_stretches(outcome: Outcome) -> Stretched
    ensures { result ≡ no_stretches outcome }
{
    Stretched {
        outcome,
        size: 0,
        total: 0,
        next: 0,
        written: 0,
    }
}

/// Puts the stretches of a selection of a variable, after so many of its elements.
fn put(
    alloc: Global,
    record_size: u64,
    file_length: u64,
    var: &PlacedVar,
    slab: &Slab,
    first: u64,
    out: &mut [Stretch],
) -> Stretched
    ensures { FindsStretched record_size file_length slab.now first out.new result var.now }
{
    let mut runs = match SlabRuns::new(alloc, record_size, file_length, var, slab, first) {
        Ok(runs) => runs,
        Err(fault) => return without_stretches(of_range(fault)),
    };
    let written = runs.put(out) as u64;
    Stretched {
        outcome: outcome_of(PASSES, 0, 0),
        size: var.xtype.size() as u64,
        total: runs.count(),
        next: runs.at(),
        written,
    }
}

/// Puts the stretches of a selection of the variable with this row and these lengths.
pub fn put_stretches(
    alloc: Global,
    row: &VarRow,
    shape: &[u64],
    record_size: u64,
    file_length: u64,
    slab: &Slab,
    first: u64,
    out: &mut [Stretch],
) -> Stretched
    ensures { TellsStretches row.now shape.now record_size file_length slab.now first out.new result }
{
    match var_of(alloc, row, shape) {
        Ok(var) => put(alloc, record_size, file_length, &var, slab, first, out),
        Err(fault) => without_stretches(of_range(fault)),
    }
}
