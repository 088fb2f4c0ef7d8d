//! One file, or several in one call.

use crate::folder::{Folder, Telling};
use crate::progress::{ProgressLine, Shown};
use clap::ArgMatches;
use ncc_answers::{FileNames, Form, Work, names_in};
use ncc_batch::answer_all;
use ncc_disk::{Trouble, open_file, reason_of};
use ncc_engines::Answer;
use ncc_header::WriteSink;
use ncc_status::tell_all;
use ncc_tasks::Words;
use ncc_values::Seq;
use std::alloc::{AllocError, AllocFailed, Global};
use std::fs::File;
use std::io;
use std::io::{BufWriter, ErrorKind, Read, Write};
use std::rt::{Clock, Files};

/// Why there are no names of files.
pub enum NoNames<'a> {
    Memory,
    /// The list of the names can't be read.
    Failed(Trouble<'a>),
}

impl<'a> From<AllocError> for NoNames<'a> {
    fn from(_e: AllocError) -> NoNames<'a> {
        NoNames::Memory
    }
}

impl<'a, T: Drop> From<AllocFailed<T>> for NoNames<'a> {
    fn from(_e: AllocFailed<T>) -> NoNames<'a> {
        NoNames::Memory
    }
}

/// The bytes of a list of names, which may be standard input.
fn list_bytes<'a, R: Files<File = File>, I: Read>(
    rt: &R,
    alloc: Global,
    list: &'a [u8],
    input: &mut I,
) -> Result<Vec<u8>, NoNames<'a>> {
    let mut bytes = Vec::new(alloc);
    let read = if list == b"-".as_slice() {
        input.read_to_end(&mut bytes)
    } else {
        match open_file(rt, list) {
            Ok(mut file) => file.read_to_end(&mut bytes),
            Err(reason) => return Err(NoNames::Failed(Trouble { name: list, reason })),
        }
    };
    match read {
        Ok(_) => Ok(bytes),
        Err(error) if error.kind() == ErrorKind::OutOfMemory => Err(NoNames::Memory),
        Err(error) => {
            let reason = reason_of(error.kind());
            Err(NoNames::Failed(Trouble { name: list, reason }))
        }
    }
}

/// The names of the files that these words name, or that stand in a list.
pub fn names_given<'a, R: Files<File = File> + AllocGlobal, I: Read>(
    rt: &R,
    line: &'a Words,
    words: &ArgMatches<'a>,
    input: &mut I,
) -> Result<FileNames, NoNames<'a>> {
    let alloc = rt.alloc();
    if let Some(list) = words.get_str("files-from0") {
        let bytes = list_bytes(rt, alloc, line.bytes_of(list), input)?;
        return Ok(names_in(alloc, &bytes)?);
    }
    let mut names = Vec::new(alloc);
    let id = if words.get_str("svg").is_some() {
        "svg"
    } else {
        "FILE"
    };
    let texts: &[&str] = words.get_strs(id).unwrap_or(&[]);
    for text in texts {
        names.push(Seq::from_vec(line.bytes_of(text).to_vec(alloc)?))?;
    }
    Ok(FileNames {
        names: Seq::from_vec(names),
        is_cut: false,
    })
}

/// A buffer before the output, or none that holds anything where all is to go out at once.
fn buffer_of<O: Write>(alloc: Global, out: &mut O, at_once: bool) -> io::Result<BufWriter<&mut O>> {
    if at_once {
        BufWriter::with_capacity(alloc, 0, out)
    } else {
        BufWriter::new(alloc, out)
    }
}

/// Shows what is asked of these files, one after the other, and says whether all that failed was told.
pub fn answer_many<R: Files<File = File> + Clock + AllocGlobal, O: Write, E: Write>(
    rt: &R,
    names: &FileNames,
    work: Work,
    form: Form,
    shown: Shown,
    out: &mut O,
    err: &mut E,
) -> (Answer, bool) {
    let Ok(writer) = buffer_of(rt.alloc(), out, shown.at_once) else {
        return (Answer::Memory, false);
    };
    let mut sink = WriteSink::new(writer);
    let all = names.names.len() as u64;
    let telling = Telling {
        failures: form == Form::Lines,
        reasons: shown.reasons,
    };
    let cut = if names.is_cut {
        all.checked_sub(1)
    } else {
        None
    };
    let line = ProgressLine::new(rt, err, shown.progress);
    let mut folder = Folder::new(rt, line, telling, all, cut);
    let answered = answer_all(
        rt.alloc(),
        &mut folder,
        names.names.as_slice(),
        work,
        form,
        &mut sink,
    );
    folder.end();
    let mut writer = sink.into_inner();
    tell_all(answered, &mut writer)
}
