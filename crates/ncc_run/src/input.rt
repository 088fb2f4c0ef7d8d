//! Standard input, listed as an object.

ghost use Rattle.std.specs.Prelude.{◌≤◌};

use crate::limited::listed_object;
use ncc_answers::{FileNames, Work, status};
use ncc_disk::{Reason, Trouble, Watched, tell_trouble};
use ncc_engines::Answer;
use ncc_header::{ReadSource, WriteSink};
use ncc_json::Wording;
use ncc_lines::FloatStyle;
use ncc_status::{end, tell_all};
use std::alloc::Global;
use std::io::{BufReader, BufWriter, Read, Write};

/// The name of standard input, and its path in the object.
const INPUT: &[u8] = b"-";

/// How floats are shown where standard input is listed as an object, if that is what is asked.
pub fn input_style(names: &FileNames, work: Work, reads_input: bool) -> Option<FloatStyle> {
    let list = names.names.as_slice();
    if !reads_input || list.len() != 1 || list[0].as_slice() != INPUT {
        return None;
    }
    match work {
        Work::List {
            style,
            wording: Wording::Members,
            ..
        } => Some(style),
        _ => None,
    }
}

/// Lists the header at the front of a reader as an object, and says whether all that failed was told there.
fn list_reader<I: Read + Drop, O: Write>(
    alloc: Global,
    input: I,
    style: FloatStyle,
    out: &mut O,
) -> (Answer, bool) {
    let Ok(reader) = BufReader::new(alloc, input) else {
        return (Answer::Memory, false);
    };
    let Ok(writer) = BufWriter::new(alloc, out) else {
        return (Answer::Memory, false);
    };
    let mut source = ReadSource::new(reader);
    let mut sink = WriteSink::new(writer);
    let answered = listed_object(alloc, &mut source, INPUT, style, &mut sink);
    let mut writer = sink.into_inner();
    tell_all(answered, &mut writer)
}

/// Lists standard input as an object, and gives the status.
pub fn list_input<I: Read, O: Write, E: Write>(
    alloc: Global,
    input: &mut I,
    style: FloatStyle,
    out: &mut Watched<O>,
    err: &mut E,
    reasons: bool,
) -> u8
    ensures { result ≤ 3 }
{
    let mut input = Watched::new(input);
    let (answer, told) = list_reader(alloc, &mut input, style, out);
    if !told || out.reason().is_some() {
        return end(answer, None, out.reason(), reasons, err);
    }
    if reasons && answer == Answer::Device {
        let reason = input.reason().unwrap_or(Reason::Other);
        tell_trouble(
            Trouble {
                name: INPUT,
                reason,
            },
            err,
        );
    }
    status(answer)
}
