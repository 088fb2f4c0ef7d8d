//! A verdict in numbers.

ghost use Rattle.std.specs.Prelude.{◌≡◌};
ghost use Rattle.ncc_c.specs.Verdicts.{empty, verdict_of};

use crate::outcome::{Outcome, PASSES, of_refusal, outcome_of};
use ncc_front::{FrontRefusal, Judgement};

/// What `ncc_judge` answers.
#[repr(C)]
#[derive(Clone, Copy, Debug, PartialEq, Eq)]
pub struct Verdict {
    pub outcome: Outcome,
    pub version: u64,
    pub header_length: u64,
    pub records: u64,
    pub record_size: u64,
    pub dims: u64,
    pub global_attrs: u64,
    pub vars: u64,
    pub notes: u64,
}

/// A verdict with nothing but an outcome.
pub fn empty(outcome: Outcome) -> Verdict
    ensures { result ≡ empty outcome }
{
    Verdict {
        outcome,
        version: 0,
        header_length: 0,
        records: 0,
        record_size: 0,
        dims: 0,
        global_attrs: 0,
        vars: 0,
        notes: 0,
    }
}

/// The numbers of an answer.
pub fn numbers_of(answer: &Result<Judgement, FrontRefusal>) -> Verdict
    ensures { result ≡ verdict_of answer.now }
{
    match answer {
        Ok(judgement) => Verdict {
            outcome: outcome_of(PASSES, 0, 0),
            version: judgement.header.schema.version.byte() as u64,
            header_length: judgement.header.length,
            records: judgement.placed.records(),
            record_size: judgement.placed.record_size(),
            dims: judgement.header.schema.dims.len() as u64,
            global_attrs: judgement.header.schema.gatts.len() as u64,
            vars: judgement.header.schema.vars.len() as u64,
            notes: judgement.notes.len() as u64,
        },
        Err(refusal) => empty(of_refusal(*refusal)),
    }
}
