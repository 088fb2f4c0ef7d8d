//! Sending what is shown of a file.

ghost use Rattle.std.specs.Prelude.{◌≡◌, ◌<◌, ◌++◌, ℕ, List, length, codes, IfOk, IfErr};
ghost use Rattle.ncc_values.specs.Failures.{Counts};
ghost use Rattle.ncc_schema.specs.Device.{Puts, WritesAll};
ghost use Rattle.ncc_answers.specs.Shown.{labelled, first_line, line_length as the_length, status_text, words_of, brief_line, shown};

use crate::answer::Answer;
use crate::form::Form;
use crate::objects::send_object;
use ncc_header::{Device, Sink, write_all};

/// How many bytes the first line has, with its end where it has one.
fn line_length(text: &[u8]) -> usize
    ensures { result ≡ the_length text.now }
{
    let mut i = 0;
    while i < text.len() {
        if text[i] == b'\n' {
            return i + 1;
        }
        i += 1;
    }
    i
}

/// Sends what stands before a line of a file.
fn send_label<W: Sink>(path: &[u8], sink: &mut W) -> Result<(), Device>
    ensures bytes { WritesAll (W.put sink.old) (W.put sink.new) result (path.now ++ codes ": ") }
    ensures count { Counts (W.failures sink.old) (W.failures sink.new) result }
{
    write_all(sink, path)?;
    write_all(sink, b": ")
}

/// Sends the first line of a text, with the path before it, and gives the lines after it.
fn send_line<'a, W: Sink>(path: &[u8], text: &'a [u8], sink: &mut W) -> Result<&'a [u8], Device>
    requires { 0 < length text.now }
    ensures shorter { IfOk result (λ rest. length rest.now < length text.now) }
    ensures sent { IfOk result (λ rest. (out : List ℕ) × Puts (W.put sink.old) (W.put sink.new) out
        × (labelled (path.now ++ codes ": ") text.now ≡ out ++ labelled (path.now ++ codes ": ") rest.now)) }
    ensures front { IfErr result (λ e. (out : List ℕ) × (rest : List ℕ)
        × (labelled (path.now ++ codes ": ") text.now ≡ out ++ rest) × Puts (W.put sink.old) (W.put sink.new) out) }
    ensures count { Counts (W.failures sink.old) (W.failures sink.new) result }
{
    let (line, rest) = text.split_at(line_length(text));
    send_label(path, sink)?;
    write_all(sink, line)?;
    Ok(rest)
}

/// Sends the lines of a text, each with the path before it.
fn send_lines<W: Sink>(path: &[u8], text: &[u8], sink: &mut W) -> Result<(), Device>
    ensures bytes { WritesAll (W.put sink.old) (W.put sink.new) result
        (labelled (path.now ++ codes ": ") text.now) }
    ensures count { Counts (W.failures sink.old) (W.failures sink.new) result }
{
    let mut rest = text;
    while !rest.is_empty() {
        rest = send_line(path, rest, sink)?;
    }
    Ok(())
}

/// The first line of a text, without its end.
fn line_of(text: &[u8]) -> &[u8]
    ensures { result.now ≡ first_line text.now }
{
    let mut i = 0;
    while i < text.len() {
        if text[i] == b'\n' {
            return text.split_at(i).0;
        }
        i += 1;
    }
    text
}

/// An answer in a few words.
fn words(answer: Answer, text: &[u8]) -> &[u8]
    ensures { result.now ≡ words_of answer text.now }
{
    match answer {
        Answer::Passed => line_of(text),
        Answer::Refused => line_of(text),
        Answer::Device => b"error device",
        Answer::Memory => b"error memory",
    }
}

/// The digit of a status.
pub(crate) fn digit(answer: Answer) -> &'static [u8]
    ensures { result.now ≡ status_text answer }
{
    match answer {
        Answer::Passed => b"0",
        Answer::Refused => b"1",
        Answer::Device => b"3",
        Answer::Memory => b"3",
    }
}

/// Sends what stands before a path in brief.
fn send_answer<W: Sink>(answer: Answer, text: &[u8], sink: &mut W) -> Result<(), Device>
    ensures bytes { WritesAll (W.put sink.old) (W.put sink.new) result
        (status_text answer ++ (codes "\t" ++ words_of answer text.now)) }
    ensures count { Counts (W.failures sink.old) (W.failures sink.new) result }
{
    write_all(sink, digit(answer))?;
    write_all(sink, b"\t")?;
    write_all(sink, words(answer, text))
}

/// Sends a path between a tab and the end of its line.
fn send_path<W: Sink>(path: &[u8], sink: &mut W) -> Result<(), Device>
    ensures bytes { WritesAll (W.put sink.old) (W.put sink.new) result (codes "\t" ++ (path.now ++ codes "\n")) }
    ensures count { Counts (W.failures sink.old) (W.failures sink.new) result }
{
    write_all(sink, b"\t")?;
    write_all(sink, path)?;
    write_all(sink, b"\n")
}

/// Sends an answer in one line.
fn send_brief<W: Sink>(path: &[u8], answer: Answer, text: &[u8], sink: &mut W) -> Result<(), Device>
    ensures bytes { WritesAll (W.put sink.old) (W.put sink.new) result (brief_line answer text.now path.now) }
    ensures count { Counts (W.failures sink.old) (W.failures sink.new) result }
{
    send_answer(answer, text, sink)?;
    send_path(path, sink)
}

/// Sends what is shown of a file. After an `Err` a front of it is sent.
pub fn send_shown<W: Sink>(
    form: Form,
    path: &[u8],
    answer: Answer,
    text: &[u8],
    sink: &mut W,
) -> Result<(), Device>
    ensures bytes { WritesAll (W.put sink.old) (W.put sink.new) result (shown form path.now answer text.now) }
    ensures count { Counts (W.failures sink.old) (W.failures sink.new) result }
{
    match form {
        Form::Lines => send_lines(path, text, sink),
        Form::Brief => send_brief(path, answer, text, sink),
        Form::Object => send_object(path, answer, text, sink),
    }
}
