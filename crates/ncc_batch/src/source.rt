//! The header at the front of a source, as an object.

ghost use Rattle.std.specs.Prelude.{◌≡◌, ◌≢◌, Some, Ok, IfOk, IfSome};
ghost use Rattle.ncc_values.specs.Failures.{Rose, Counts};
ghost use Rattle.ncc_schema.specs.Device.{AsksFew, LosesAtMost};
ghost use Rattle.ncc_schema.specs.declared.schema.Header.{Header};
ghost use Rattle.ncc_header.specs.Answers.{Begins, IsLeft};
ghost use Rattle.ncc_batch.specs.Answered.{IsTextIn, SendsOne, TextFails};
ghost use Rattle.ncc_answers.specs.declared.form.Form.{Form};
ghost use Rattle.ncc_answers.specs.declared.work.Work.{Work};
ghost use Rattle.ncc_json.specs.declared.wording.Wording.{Wording};

use ncc_answers::{Form, send_shown};
use ncc_engines::Answer;
use ncc_header::{Device, Sink, Source, WriteSink};
use ncc_lines::FloatStyle;
use ncc_listed::members_engine;
use std::alloc::Global;

/// The members of the header at the front of a source, or none where the source failed or there was no memory.
fn members_in<R: Source>(
    alloc: Global,
    source: &mut R,
    limit: u64,
    style: FloatStyle,
) -> (Answer, Vec<u8>)
    ensures told { IfSome (R.left source.old) (λ input.
        IsTextIn (Work.List limit style Wording.Members) input result.0 result.1.items) }
    ensures exactly { result.0 ≡ Answer.Passed → IfSome (R.left source.old) (λ input.
        (h : Header) × Begins input limit h × IsLeft (R.left source.new) input h) }
    ensures most { LosesAtMost (R.left source.old) (R.left source.new) limit }
    ensures calls { AsksFew (R.left source.old) (R.left source.new) (R.calls source.old) (R.calls source.new) }
    ensures fails { TextFails result.0 (R.failures source.old) (R.failures source.new) }
{
    let mut sink = WriteSink::new(Vec::new(alloc));
    let answer = members_engine(alloc, source, limit, style, &mut sink);
    if sink.failures() > 0 || answer == Answer::Memory {
        return (Answer::Memory, Vec::new(alloc));
    }
    if answer == Answer::Device {
        return (Answer::Device, Vec::new(alloc));
    }
    (answer, sink.into_inner())
}

/// Shows what the header at the front of a source says, as an object with this path. Its text is in memory before any of
/// it is sent. Of the source exactly the header is read where it passed, and no byte past the limit otherwise.
pub fn list_source<R: Source, W: Sink>(
    alloc: Global,
    source: &mut R,
    path: &[u8],
    limit: u64,
    style: FloatStyle,
    sink: &mut W,
) -> Result<Answer, Device>
    ensures sends { IfSome (R.left source.old) (λ input. SendsOne (Work.List limit style Wording.Members) Form.Object
        path.now (Some input) (W.put sink.old) (W.put sink.new) result) }
    ensures exactly { result ≡ Ok Answer.Passed → IfSome (R.left source.old) (λ input.
        (h : Header) × Begins input limit h × IsLeft (R.left source.new) input h) }
    ensures most { LosesAtMost (R.left source.old) (R.left source.new) limit }
    ensures calls { AsksFew (R.left source.old) (R.left source.new) (R.calls source.old) (R.calls source.new) }
    ensures fails { IfOk result (λ a. TextFails a (R.failures source.old) (R.failures source.new)) }
    ensures count { Counts (W.failures sink.old) (W.failures sink.new) result }
{
    let (answer, text) = members_in(alloc, source, limit, style);
    send_shown(Form::Object, path, answer, &text, sink)?;
    Ok(answer)
}
