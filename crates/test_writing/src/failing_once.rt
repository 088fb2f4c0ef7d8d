//! A sink that fails once, and would pass the calls after.

use crate::helpers::Step::{Fill, Put};
use crate::helpers::*;
use crate::plans::*;
use ncc_schema::WriteSink;
use ncc_values::XType;
use ncc_write::{FileWriter, WriteFault};
use std::alloc::Global;
use std::io::{self, Error, ErrorKind, Write};
use std::process::Abort;
use std::test::*;
use test_files::{TWO_RECORD_VARIABLES, bytes_of};

/// A writer that takes at most 3 bytes a call, and fails at one call alone.
#[derive(Drop)]
struct FailsOnce {
    /// How many calls there were.
    calls: u64,
    fails_at: u64,
    taken: Vec<u8>,
}

impl Write for FailsOnce {
    fn write(&mut self, bytes: &[u8]) -> io::Result<usize> {
        let call = self.calls;
        self.calls = call.saturating_add(1);
        if call == self.fails_at {
            return Err(Error::from(ErrorKind::Other));
        }
        let (front, _rest) = bytes.split_at(bytes.len().min(3));
        self.taken.extend_from_slice(front)?;
        Ok(front.len())
    }

    fn flush(&mut self) -> io::Result<()> {
        Ok(())
    }
}

type Once = WriteSink<FailsOnce>;

fn sink_of(alloc: Global, fails_at: u64) -> Once {
    WriteSink::new(FailsOnce {
        calls: 0,
        fails_at,
        taken: Vec::new(alloc),
    })
}

/// The records of two variables; the last one fills the file.
const FAILS: [(Step, Result<(), WriteFault>); 6] = [
    (Put(XType::Byte, &[5]), Ok(())),
    (Put(XType::Short, &[0, 7]), Ok(())),
    (Put(XType::Byte, &[6]), Ok(())),
    (Put(XType::Short, &[0, 8]), Err(WriteFault::Device)),
    (Put(XType::Short, &[0, 8]), Err(WriteFault::Failed)),
    (Fill, Err(WriteFault::Failed)),
];

/// The sink once the file isn't finished.
fn left(writer: FileWriter<Once>) -> Option<Once> {
    match writer.finish() {
        Ok(_) => None,
        Err((writer, _)) => Some(writer.into_sink()),
    }
}

/// The sink that failed once, after all steps.
fn failed<R: Abort + AllocGlobal>(rt: &R, fails_at: u64) -> Option<Once> {
    let built = built(rt.alloc(), &RECORDS_OF_TWO).ok()?;
    match FileWriter::start(rt.alloc(), built, sink_of(rt.alloc(), fails_at)) {
        Ok(writer) => {
            let mut writer = writer;
            answers(rt, &mut writer, &FAILS);
            left(writer)
        }
        Err((sink, _)) => Some(sink),
    }
}

/// How many bytes went out before this call: of the header's 116 by 39 calls, and then of the values.
fn length_before(call: u64) -> usize {
    let most = if call < 39 { 0 } else { 116 };
    let calls = if call < 39 { call } else { call - 39 };
    most + calls.min(39) as usize * 3
}

/// Whether the call that fails is the last one, and a front of the file went out before it.
fn ends_at<R: Abort + AllocGlobal>(rt: &R, file: &[u8], fails_at: u64) -> bool {
    let Some(sink) = failed(rt, fails_at) else {
        return false;
    };
    let inner = sink.into_inner();
    let (front, _rest) = file.split_at(length_before(fails_at).min(file.len()));
    inner.calls == fails_at.saturating_add(1) && inner.taken.as_slice() == front
}

/// A sink that failed isn't called again.
#[test]
fn failed_sink_is_left(rt: HostRuntime) -> Result<(), Fail> {
    let file = bytes_of(rt.alloc(), &TWO_RECORD_VARIABLES)?;
    for call in 0..45 {
        assert!(rt; ends_at(&rt, &file, call), "call {call}");
    }
    Ok(())
}
