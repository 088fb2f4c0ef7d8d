//! The commands over one file of the system.

use crate::limited::{extended_file, listed, selected};
use ncc_answers::Work;
use ncc_batch::write_text;
use ncc_disk::{Reason, Trouble, Watched, open_file, open_to_extend, open_to_read, reason_in};
use ncc_engines::Answer;
use ncc_header::{ReadSource, WriteSink};
use ncc_lines::{FloatStyle, Progress};
use ncc_status::{Ended, flush_answer};
use ncc_store::AheadStore;
use ncc_tasks::{Extending, Selecting};
use std::alloc::Global;
use std::fs::File;
use std::io::{BufReader, BufWriter, Read, Write};
use std::rt::{Clock, Files};

/// An answer of a file, and why a call of it failed.
fn ended(name: &[u8], answer: Answer, reason: Reason) -> Ended<'_> {
    Ended {
        answer,
        trouble: Some(Trouble { name, reason }),
    }
}

/// Lists the header at the front of a reader.
fn list_reader<I: Read + Drop, O: Write>(
    alloc: Global,
    input: I,
    style: FloatStyle,
    out: &mut O,
) -> Answer {
    let Ok(reader) = BufReader::new(alloc, input) else {
        return Answer::Memory;
    };
    let Ok(writer) = BufWriter::new(alloc, out) else {
        return Answer::Memory;
    };
    let mut source = ReadSource::new(reader);
    let mut sink = WriteSink::new(writer);
    let answer = listed(alloc, &mut source, style, &mut sink);
    let mut writer = sink.into_inner();
    flush_answer(&mut writer, answer)
}

/// Lists the header at the front of a reader that has this name.
fn list_watched<'a, I: Read, O: Write>(
    alloc: Global,
    name: &'a [u8],
    input: &mut I,
    style: FloatStyle,
    out: &mut O,
) -> Ended<'a> {
    let mut input = Watched::new(input);
    let answer = list_reader(alloc, &mut input, style, out);
    ended(name, answer, input.reason().unwrap_or(Reason::Other))
}

/// Lists the header of a file, or with `reads_input` of standard input where it is named `-`.
pub fn list<'a, R: Files<File = File> + AllocGlobal, I: Read, O: Write>(
    rt: &R,
    name: &'a [u8],
    style: FloatStyle,
    reads_input: bool,
    input: &mut I,
    out: &mut O,
) -> Ended<'a> {
    if reads_input && name == b"-".as_slice() {
        return list_watched(rt.alloc(), name, input, style, out);
    }
    match open_file(rt, name) {
        Ok(mut file) => list_watched(rt.alloc(), name, &mut file, style, out),
        Err(reason) => ended(name, Answer::Device, reason),
    }
}

/// Checks a file or lays it out, as the work asks.
pub fn check<'a, R: Files<File = File> + AllocGlobal, O: Write>(
    rt: &R,
    name: &'a [u8],
    work: Work,
    out: &mut O,
) -> Ended<'a> {
    let mut store = match open_to_read(rt, name) {
        Ok(store) => store,
        Err(reason) => return ended(name, Answer::Device, reason),
    };
    let Ok(writer) = BufWriter::new(rt.alloc(), out) else {
        return ended(name, Answer::Memory, Reason::Other);
    };
    let mut sink = WriteSink::new(writer);
    let answer = write_text(rt.alloc(), &mut store, work, &mut sink);
    let mut writer = sink.into_inner();
    ended(name, flush_answer(&mut writer, answer), reason_in(&store))
}

/// Prints what is picked of a variable of a file.
pub fn select<'a, R: Files<File = File> + AllocGlobal, O: Write, P: Progress>(
    rt: &R,
    selecting: Selecting<'a>,
    out: &mut O,
    progress: &mut P,
) -> Ended<'a> {
    let name = selecting.file;
    let store = match open_to_read(rt, name) {
        Ok(store) => store,
        Err(reason) => return ended(name, Answer::Device, reason),
    };
    let Ok(writer) = BufWriter::new(rt.alloc(), out) else {
        return ended(name, Answer::Memory, Reason::Other);
    };
    let Ok(ahead) = AheadStore::new(rt.alloc(), store) else {
        return ended(name, Answer::Memory, Reason::Other);
    };
    let mut sink = WriteSink::new(writer);
    let (ahead, answer) = selected(rt.alloc(), ahead, selecting, &mut sink, progress);
    let mut writer = sink.into_inner();
    ended(
        name,
        flush_answer(&mut writer, answer),
        reason_in(&ahead.into_inner()),
    )
}

/// Adds records of fill values to a file.
pub fn extend<'a, R: Files<File = File> + AllocGlobal, O: Write>(
    rt: &R,
    extending: Extending<'a>,
    out: &mut O,
) -> Ended<'a> {
    let name = extending.file;
    let store = match open_to_extend(rt, name, extending.more) {
        Ok(store) => store,
        Err(reason) => return ended(name, Answer::Device, reason),
    };
    let Ok(writer) = BufWriter::new(rt.alloc(), out) else {
        return ended(name, Answer::Memory, Reason::Other);
    };
    let mut sink = WriteSink::new(writer);
    // (the store keeps the lock until the line is out)
    let (store, answer) = extended_file(rt.alloc(), store, extending, &mut sink);
    let mut writer = sink.into_inner();
    ended(name, flush_answer(&mut writer, answer), reason_in(&store))
}
