//! Calls of a builder in tables.

use super::helpers::attr;
use ncc_build::{Built, SchemaBuilder, WriteFault};
use ncc_values::{Values, Version, XType};
use std::alloc::Global;

/// A call: a dimension with its length, a variable with its type and dimensions, or an attribute without values, of the
/// file or of a variable.
#[derive(Clone, Copy)]
pub enum Step {
    Dim(&'static [u8], u64),
    Var(&'static [u8], XType, &'static [usize]),
    Global(&'static [u8], XType),
    Attr(usize, &'static [u8], XType),
}

/// How many dimensions, global attributes and variables are built, and the vsize and the begin of the last variable.
pub type Counts = (usize, usize, usize, Option<(u64, u64)>);

/// Calls, each with its answer, and what is built with so many records: or why nothing is, and whether something is
/// built without a record.
#[derive(Clone, Copy)]
pub struct Row {
    pub name: &'static str,
    pub version: Version,
    pub steps: &'static [(Step, Result<usize, WriteFault>)],
    pub records: u64,
    pub end: Result<Counts, (WriteFault, bool)>,
}

/// An attribute's answer, as a number.
fn numbered(outcome: Result<(), WriteFault>) -> Result<usize, WriteFault> {
    match outcome {
        Ok(()) => Ok(0),
        Err(fault) => Err(fault),
    }
}

fn take_step(alloc: Global, builder: &mut SchemaBuilder, step: Step) -> Result<usize, WriteFault> {
    match step {
        Step::Dim(name, length) => builder.dim(name, length),
        Step::Var(name, xtype, dims) => builder.var(name, xtype, dims),
        Step::Global(name, xtype) => numbered(builder.global(name, Values::new(alloc, xtype))),
        Step::Attr(var, name, xtype) => {
            numbered(attr(builder, var, name, Values::new(alloc, xtype)))
        }
    }
}

/// Whether each call has its answer.
fn are_answered(alloc: Global, builder: &mut SchemaBuilder, row: &Row) -> bool {
    for (step, answer) in row.steps {
        if take_step(alloc, builder, *step) != *answer {
            return false;
        }
    }
    true
}

fn counts(built: &Built) -> Counts {
    let schema = built.schema();
    (
        schema.dims.len(),
        schema.gatts.len(),
        schema.vars.len(),
        built
            .places()
            .last()
            .map(|place| (place.vsize, place.begin)),
    )
}

fn end_of(builder: SchemaBuilder, records: u64) -> Result<Counts, (WriteFault, bool)> {
    match builder.build(records) {
        Ok(built) => Ok(counts(&built)),
        Err((builder, fault)) => Err((fault, builder.build(0).is_ok())),
    }
}

/// Whether the row's calls have their answers, and its end.
pub fn is_so(alloc: Global, row: &Row) -> bool {
    let mut builder = SchemaBuilder::new(alloc, row.version);
    if !are_answered(alloc, &mut builder, row) {
        return false;
    }
    end_of(builder, row.records) == row.end
}
