//! Converting a file into a new one.

use crate::limited::converted;
use ncc_disk::{NewFile, Reason, Trouble, folder_of, open_to_read, reason_in};
use ncc_engines::Answer;
use ncc_header::WriteSink;
use ncc_lines::Progress;
use ncc_status::{Ended, flush_answer};
use ncc_store::AheadStore;
use ncc_tasks::Converting;
use std::fs::File;
use std::io::{BufWriter, Write};
use std::rt::{Clock, Files};

/// Converts a file into a new one.
pub fn convert<'a, R: Files<File = File> + AllocGlobal, O: Write, P: Progress>(
    rt: &R,
    converting: Converting<'a>,
    out: &mut O,
    progress: &mut P,
) -> Ended<'a> {
    let Converting { from, to, .. } = converting;
    let mut trouble = Trouble {
        name: from,
        reason: Reason::Other,
    };
    let store = match open_to_read(rt, from) {
        Ok(store) => store,
        Err(reason) => {
            trouble.reason = reason;
            return Ended {
                answer: Answer::Device,
                trouble: Some(trouble),
            };
        }
    };
    let (Ok(writer), Ok(ahead), Ok(mut target)) = (
        BufWriter::new(rt.alloc(), out),
        AheadStore::new(rt.alloc(), store),
        NewFile::new(rt.alloc(), rt, to),
    ) else {
        return Ended {
            answer: Answer::Memory,
            trouble: None,
        };
    };
    let mut sink = WriteSink::new(writer);
    let (ahead, answer) = converted(
        rt.alloc(),
        ahead,
        converting,
        &mut target,
        &mut sink,
        progress,
    );
    trouble.reason = reason_in(&ahead.into_inner());
    if let Some(reason) = target.reason() {
        let name = if target.in_folder() {
            folder_of(to)
        } else {
            to
        };
        trouble = Trouble { name, reason };
    }
    let mut writer = sink.into_inner();
    Ended {
        answer: flush_answer(&mut writer, answer),
        trouble: Some(trouble),
    }
}
