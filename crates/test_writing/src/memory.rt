//! Writing where memory may be refused. scripts/refuse_test_memory.sh refuses one allocation after another.

use crate::helpers::*;
use crate::plans::*;
use ncc_schema::WriteSink;
use ncc_values::{Values, XType};
use ncc_write::{FileWriter, WriteFault};
use std::alloc::Global;
use std::process::Abort;
use std::test::*;

/// A writer that was started, or the reason and what went out.
fn started_over(
    alloc: Global,
    plan: &Plan,
    sink: WriteSink<Vec<u8>>,
) -> Result<Writer, (Vec<u8>, WriteFault)> {
    match built(alloc, plan) {
        Ok(built) => match FileWriter::start(alloc, built, sink) {
            Ok(writer) => Ok(writer),
            Err((sink, fault)) => Err((sink.into_inner(), fault)),
        },
        Err(fault) => Err((sink.into_inner(), fault)),
    }
}

/// A writer of the plan's file into a sink with room for so many bytes. Where there is none, memory was refused, and
/// nothing went out; a sink that would have to grow has failed.
fn start_in_room<R: Abort + AllocGlobal>(rt: &R, plan: &Plan, room: usize) -> Option<Writer> {
    let bytes = Vec::with_capacity(rt.alloc(), room).ok()?;
    match started_over(rt.alloc(), plan, WriteSink::new(bytes)) {
        Ok(writer) => Some(writer),
        Err((out, fault)) => {
            assert!(rt; fault == WriteFault::Memory || room == 0 && fault == WriteFault::Device);
            assert!(rt; out.is_empty());
            None
        }
    }
}

/// Puts the values and fills the rest, whatever memory is refused: after the start none is needed.
fn puts_and_fills<R: Abort>(rt: &R, writer: &mut Writer, values: &Values) {
    assert!(rt; writer.put(values) == Ok(()));
    assert!(rt; writer.fill_rest() == Ok(()));
    assert!(rt; writer.expects() == None);
}

/// Whether a file of this length is finished.
fn is_finished(writer: Writer, length: usize) -> bool {
    match finished(writer) {
        Some(file) => file.len() == length,
        None => false,
    }
}

/// Writes these values, and fill values after them.
fn writes<R: Abort + AllocGlobal>(rt: &R, plan: &Plan, values: &Values, length: usize) {
    if let Some(writer) = start_in_room(rt, plan, length) {
        let mut writer = writer;
        puts_and_fills(rt, &mut writer, values);
        assert!(rt; is_finished(writer, length));
    }
}

/// The same of the values of these bytes.
fn writes_bytes<R: Abort + AllocGlobal>(
    rt: &R,
    plan: &Plan,
    xtype: XType,
    bytes: &[u8],
    length: usize,
) {
    if let Ok(values) = values_of(rt.alloc(), xtype, bytes) {
        writes(rt, plan, &values, length);
    }
}

#[test]
fn fixed_variable_without_memory(rt: HostRuntime) {
    writes_bytes(&rt, &SHORTS, XType::Short, &[0, 1, 0, 2], 88);
}

#[test]
fn records_without_memory(rt: HostRuntime) {
    writes_bytes(&rt, &RECORDS_OF_TWO, XType::Byte, &[5], 132);
}

/// A sink that finds no memory has failed.
#[test]
fn growing_sink_without_memory(rt: HostRuntime) {
    if let Some(writer) = start_in_room(&rt, &SHORTS, 0) {
        assert!(rt; writer.expects() == Some((0, 0, 3)));
    }
}
