//! The steps of a selection, by numbers.

ghost use Rattle.std.specs.Prelude.{◌≡◌};
ghost use Rattle.ncc_c.specs.Selecting.{PutsSteps, TellsSteps, no_steps};

use crate::outcome::{NO_ROOM, Outcome, PASSES, of_range, outcome_of};
use crate::rows::VarRow;
use crate::selecting::var_of;
use ncc_layout::PlacedVar;
use ncc_ranges::{RangeFault, Steps, steps_of};
use ncc_slab::Slab;
use std::alloc::Global;

/// What `ncc_steps` answers: the place of the first selected element, the bytes of an element, and how many there are.
#[repr(C)]
#[derive(Clone, Copy, Debug, PartialEq, Eq)]
pub struct Stepped {
    pub outcome: Outcome,
    pub base: u64,
    pub size: u64,
    pub total: u64,
}

/// An answer with nothing but an outcome.
pub fn without_steps(outcome: Outcome) -> Stepped
    ensures { result ≡ no_steps outcome }
{
    Stepped {
        outcome,
        base: 0,
        size: 0,
        total: 0,
    }
}

/// Puts the steps of an answer.
fn put(answer: &Result<Steps, RangeFault>, var: &PlacedVar, out: &mut [u64]) -> Stepped
    ensures { PutsSteps var.now answer.now out.new result }
{
    let found = match answer {
        Ok(found) => found,
        Err(fault) => return without_steps(of_range(*fault)),
    };
    let steps = found.steps.as_slice();
    if out.len() < steps.len() {
        return without_steps(outcome_of(NO_ROOM, 0, 0));
    }
    for k in 0..steps.len() {
        out[k] = steps[k];
    }
    Stepped {
        outcome: outcome_of(PASSES, 0, 0),
        base: found.base,
        size: var.xtype.size() as u64,
        total: found.total,
    }
}

/// Puts the steps of a selection of the variable with this row and these lengths.
pub fn put_steps(
    alloc: Global,
    row: &VarRow,
    shape: &[u64],
    record_size: u64,
    file_length: u64,
    slab: &Slab,
    out: &mut [u64],
) -> Stepped
    ensures { TellsSteps row.now shape.now record_size file_length slab.now out.new result }
{
    let var = match var_of(alloc, row, shape) {
        Ok(var) => var,
        Err(fault) => return without_steps(of_range(fault)),
    };
    let answer = steps_of(alloc, record_size, file_length, &var, slab);
    put(&answer, &var, out)
}
