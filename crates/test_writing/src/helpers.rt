//! Writers in memory, and the steps in which they are given values.

use crate::plans::{Plan, built};
use ncc_schema::{FuseSink, Sink, WriteSink};
use ncc_values::{Values, XType};
use ncc_write::{Built, FileWriter, WriteFault};
use std::alloc::{AllocError, Global};
use std::process::Abort;
use std::test::*;

/// A writer into memory.
pub type Writer = FileWriter<WriteSink<Vec<u8>>>;

/// Values by the bytes of their elements, or fill values for the rest.
#[derive(Clone, Copy)]
pub enum Step {
    Put(XType, &'static [u8]),
    Fill,
}

/// A writer of this file.
pub fn started_with(alloc: Global, built: Built) -> Option<Writer> {
    FileWriter::start(alloc, built, WriteSink::new(Vec::new(alloc))).ok()
}

/// A writer of the plan's file.
pub fn started(alloc: Global, plan: &Plan) -> Option<Writer> {
    match built(alloc, plan) {
        Ok(built) => started_with(alloc, built),
        Err(_) => None,
    }
}

/// The values of which these are the bytes; none where a value isn't whole.
pub fn values_of(alloc: Global, xtype: XType, bytes: &[u8]) -> Result<Values, AllocError> {
    let mut values = Values::new(alloc, xtype);
    if values.xtype() == xtype && bytes.len() % xtype.size() == 0 {
        values.push_from(bytes)?;
    }
    Ok(values)
}

/// Puts the values of which these are the bytes.
pub fn put<W: Sink>(
    alloc: Global,
    writer: &mut FileWriter<W>,
    xtype: XType,
    bytes: &[u8],
) -> Result<(), WriteFault> {
    let values = values_of(alloc, xtype, bytes)?;
    writer.put(&values)
}

pub fn take_step<W: Sink>(
    alloc: Global,
    writer: &mut FileWriter<W>,
    step: Step,
) -> Result<(), WriteFault> {
    match step {
        Step::Put(xtype, bytes) => put(alloc, writer, xtype, bytes),
        Step::Fill => writer.fill_rest(),
    }
}

/// Takes the steps, each of which has this answer.
pub fn answers<R: Abort + AllocGlobal, W: Sink>(
    rt: &R,
    writer: &mut FileWriter<W>,
    steps: &[(Step, Result<(), WriteFault>)],
) {
    for (number, (step, answer)) in steps.iter().enumerate() {
        assert!(rt;
            take_step(rt.alloc(), writer, *step) == *answer,
            "step {number}"
        );
    }
}

/// The file, if it is complete.
pub fn finished(writer: Writer) -> Option<Vec<u8>> {
    match writer.finish() {
        Ok(sink) => Some(sink.into_inner()),
        Err(_) => None,
    }
}

/// The plan's file, whose steps have these answers.
pub fn file_by<R: Abort + AllocGlobal>(
    rt: &R,
    plan: &Plan,
    steps: &[(Step, Result<(), WriteFault>)],
) -> Option<Vec<u8>> {
    let mut writer = started(rt.alloc(), plan)?;
    answers(rt, &mut writer, steps);
    finished(writer)
}

/// A sink in memory that passes some calls.
pub type Fused = FuseSink<WriteSink<Vec<u8>>>;

/// A writer of the plan's file over a sink that passes so many calls, of at most so many bytes; or why it doesn't
/// start. Nothing where the plan isn't built.
pub fn fused(
    alloc: Global,
    plan: &Plan,
    calls: u64,
    most: u64,
) -> Option<Result<FileWriter<Fused>, (Fused, WriteFault)>> {
    let sink = FuseSink::new(WriteSink::new(Vec::new(alloc)), calls, most.max(1));
    match built(alloc, plan) {
        Ok(built) => Some(FileWriter::start(alloc, built, sink)),
        Err(_) => None,
    }
}

pub fn bytes_in(sink: Fused) -> Vec<u8> {
    sink.into_inner().into_inner()
}

/// Why a file isn't finished, if it isn't, and what went out. After a failure nothing is expected any more.
pub fn ended(writer: FileWriter<Fused>) -> (Option<WriteFault>, Vec<u8>) {
    match writer.finish() {
        Ok(sink) => (None, bytes_in(sink)),
        Err((writer, fault)) => {
            let fault = match writer.expects() {
                None => fault,
                Some(_) => WriteFault::Unfinished,
            };
            (Some(fault), bytes_in(writer.into_sink()))
        }
    }
}
