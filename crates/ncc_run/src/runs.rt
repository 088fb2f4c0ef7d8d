//! Running a command.

ghost use Rattle.std.specs.Prelude.{◌≤◌};

use crate::converting_files::convert;
use crate::input::{input_style, list_input};
use crate::many::{NoNames, answer_many, names_given};
use crate::progress::{ProgressLine, Shown, Terminals};
use crate::single::{check, extend, list, select};
use clap::ArgMatches;
use ncc_answers::{FileNames, Form, Work, status};
use ncc_commands::{FAULTS, asks_for_faults, command};
use ncc_disk::{Reason, Trouble, Watched};
use ncc_engines::Answer;
use ncc_lines::Progress;
use ncc_status::{Ended, USAGE, end, explain, finish, refuse_words, show};
use ncc_tasks::{Selecting, Task, Words, task_given};
use std::fs::File;
use std::io::{Read, Write};
use std::rt::{Clock, Files};

/// The one file that is named and shown as today, if that is so.
fn only_file<'a>(names: &'a FileNames, form: Form) -> Option<&'a [u8]> {
    let list = names.names.as_slice();
    if form != Form::Lines || list.len() != 1 {
        return None;
    }
    Some(list[0].as_slice())
}

/// Answers for a file whose name was cut.
fn cut_off(name: &[u8]) -> Ended<'_> {
    let reason = Reason::CutName;
    Ended {
        answer: Answer::Device,
        trouble: Some(Trouble { name, reason }),
    }
}

/// Prints what is picked of a variable.
fn csv<'a, R: Files<File = File> + Clock + AllocGlobal, O: Write, E: Write>(
    rt: &R,
    selecting: Selecting<'a>,
    out: &mut O,
    err: &mut E,
    shown: Shown,
) -> Ended<'a> {
    let mut progress = ProgressLine::new(rt, err, shown.progress);
    let ended = select(rt, selecting, out, &mut progress);
    progress.end();
    ended
}

/// Checks, lays out or lists one file, and gives the status.
fn answer_one_of<R: Files<File = File> + Clock + AllocGlobal, I: Read, O: Write, E: Write>(
    rt: &R,
    names: &FileNames,
    name: &[u8],
    work: Work,
    reads_input: bool,
    input: &mut I,
    out: &mut Watched<O>,
    err: &mut E,
    shown: Shown,
) -> u8
    ensures { result ≤ 3 }
{
    let Ended { answer, trouble } = match work {
        _ if names.is_cut => cut_off(name),
        Work::Check { .. } | Work::Explain { .. } | Work::Layout { .. } | Work::Picture { .. } =>
            check(rt, name, work, out),
        Work::List { style, .. } => list(rt, name, style, reads_input, input, out),
    };
    end(answer, trouble, out.reason(), shown.reasons, err)
}

/// Checks, lays out or lists several files, and gives the status.
fn answer_all_of<R: Files<File = File> + Clock + AllocGlobal, O: Write, E: Write>(
    rt: &R,
    names: &FileNames,
    work: Work,
    form: Form,
    out: &mut Watched<O>,
    err: &mut E,
    shown: Shown,
) -> u8
    ensures { result ≤ 3 }
{
    let (answer, told) = answer_many(rt, names, work, form, shown, out, err);
    if told && out.reason().is_none() {
        return status(answer);
    }
    end(answer, None, out.reason(), shown.reasons, err)
}

/// Runs `check`, `layout` or `list`, and gives the status.
fn run_files<'a, R: Files<File = File> + Clock + AllocGlobal, I: Read, O: Write, E: Write>(
    rt: &R,
    line: &'a Words,
    words: &ArgMatches<'a>,
    work: Work,
    form: Form,
    input: &mut I,
    out: &mut Watched<O>,
    err: &mut E,
    shown: Shown,
) -> u8
    ensures { result ≤ 3 }
{
    let names = match names_given(rt, line, words, input) {
        Ok(names) => names,
        Err(NoNames::Memory) => return finish(Answer::Memory, err),
        Err(NoNames::Failed(trouble)) => {
            return end(Answer::Device, Some(trouble), None, shown.reasons, err);
        }
    };
    let reads_input = words.get_str("files-from0").is_none();
    if let Some(style) = input_style(&names, work, reads_input) {
        return list_input(rt.alloc(), input, style, out, err, shown.reasons);
    }
    let Some(name) = only_file(&names, form) else {
        return answer_all_of(rt, &names, work, form, out, err, shown);
    };
    answer_one_of(rt, &names, name, work, reads_input, input, out, err, shown)
}

/// Runs the command of these words, and gives the status.
fn run_command<'a, R: Files<File = File> + Clock + AllocGlobal, I: Read, O: Write, E: Write>(
    rt: &R,
    line: &'a Words,
    command: &str,
    words: &ArgMatches<'a>,
    input: &mut I,
    out: &mut Watched<O>,
    err: &mut E,
    terminals: Terminals,
) -> u8
    ensures { result ≤ 3 }
{
    let shown = Shown {
        progress: terminals.err && (!terminals.out || command != "csv"),
        reasons: terminals.err || words.get_flag("verbose"),
        at_once: terminals.err && terminals.out,
    };
    let task = match task_given(rt.alloc(), line, command, words) {
        Ok(task) => task,
        Err(fault) => return refuse_words(fault, words, shown.reasons, err),
    };
    let Ended { answer, trouble } = match task {
        Task::Answer(work, form) => {
            return run_files(rt, line, words, work, form, input, out, err, shown);
        }
        Task::Select(selecting) => csv(rt, selecting, out, err, shown),
        Task::Extend(extending) => extend(rt, extending, out),
        Task::Convert(converting) => {
            let mut progress = ProgressLine::new(rt, err, shown.progress);
            convert(rt, converting, out, &mut progress)
        }
    };
    end(answer, trouble, out.reason(), shown.reasons, err)
}

/// Runs the command that the command line names, and gives the program's status. Long work is shown on
/// `err` where that is a terminal, and why something failed.
pub fn run<R: Files<File = File> + Clock + AllocGlobal, I: Read, O: Write, E: Write>(
    rt: &R,
    line: &Words,
    input: &mut I,
    out: &mut O,
    err: &mut E,
    terminals: Terminals,
) -> u8
    ensures { result ≤ 3 }
{
    let mut out = Watched::new(&mut *out);
    if asks_for_faults(line.texts()) {
        let answer = show(rt.alloc(), FAULTS, &mut out);
        return end(answer, None, out.reason(), terminals.err, err);
    }
    let Ok(command) = command(rt.alloc(), line.texts()) else {
        return finish(Answer::Memory, err);
    };
    match command.try_get_matches_from(line.texts()) {
        Ok(matches) => match matches.subcommand() {
            Some((name, words)) => {
                run_command(rt, line, name, words, input, &mut out, err, terminals)
            }
            _ => USAGE,
        },
        Err(error) => explain(rt.alloc(), &error, &mut out, err),
    }
}
