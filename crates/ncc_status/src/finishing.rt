//! What a run leaves: its status, and what is still to be written.

ghost use Rattle.std.specs.Prelude.{◌≡◌, ◌↔◌, ◌≢◌, [], true, false, Some, Ok, IfOk, OnErr};
ghost use Rattle.std.specs.Io.Buffered.{writer_buffer, writer_contents};
ghost use Rattle.std.specs.Io.KnownBytes.{Keeps};
ghost use Rattle.clap.specs.Values.{kind_of};
ghost use Rattle.ncc_answers.specs.Shown.{status_of};
ghost use Rattle.ncc_status.specs.Status.{Explains, Flushes};

use clap::Error;
use clap::error::ErrorKind;
use ncc_answers::{Answer, status};
use ncc_disk::{Reason, Trouble, Watched, tell_trouble};
use ncc_header::Device;
use std::alloc::Global;
use std::io::{BufWriter, Write};

/// The status of a command line that is wrong.
pub const USAGE: u8 = 2;

/// Says on `err` what kept the command from its end, as far as that can be written, and gives the
/// status.
pub fn finish<E: Write>(answer: Answer, err: &mut E) -> u8
    ensures status { result ≡ status_of answer }
    ensures quiet { answer ≢ Answer.Device → answer ≢ Answer.Memory → err.new ≡ err.old }
{
    match answer {
        Answer::Device => {
            let _ = err.write_all(b"error device\n");
        }
        Answer::Memory => {
            let _ = err.write_all(b"error memory\n");
        }
        _ => {}
    }
    status(answer)
}

/// What a command came to, and what failed where that is known.
#[derive(Clone, Copy)]
pub struct Ended<'a> {
    pub answer: Answer,
    pub trouble: Option<Trouble<'a>>,
}

/// Says on `err` what kept the command from its end, and with `told` why, and gives the status. Where nobody reads
/// the output any more nothing is said.
pub fn end<E: Write>(
    answer: Answer,
    trouble: Option<Trouble<'_>>,
    output: Option<Reason>,
    told: bool,
    err: &mut E,
) -> u8
    ensures status { result ≡ status_of answer }
    ensures quiet { answer ≢ Answer.Device → answer ≢ Answer.Memory → err.new ≡ err.old }
    ensures closed { output ≡ Some Reason.Closed → err.new ≡ err.old }
{
    if output == Some(Reason::Closed) {
        return status(answer);
    }
    let ended = finish(answer, err);
    if told && answer == Answer::Device {
        tell_why(trouble, output, err);
    }
    ended
}

/// Says on `err` which file failed, and why, or else that the output did.
fn tell_why<E: Write>(trouble: Option<Trouble<'_>>, output: Option<Reason>, err: &mut E) {
    if let Some(reason) = output {
        let name = b"standard output".as_slice();
        tell_trouble(Trouble { name, reason }, err);
    } else if let Some(trouble) = trouble {
        tell_trouble(trouble, err);
    }
}

/// The answer, once what is left in a buffer went out.
pub fn flush_answer<W: Write + Drop>(writer: &mut BufWriter<W>, answer: Answer) -> Answer
    ensures answer { Flushes answer result }
    ensures same { Keeps (writer_contents W.contents writer.old) (writer_contents W.contents writer.new) }
    ensures empty { result ≢ Answer.Device → result ≢ Answer.Memory → writer_buffer writer.new ≡ [] }
{
    if writer.flush().is_ok() {
        return answer;
    }
    match answer {
        Answer::Memory => Answer::Memory,
        _ => Answer::Device,
    }
}

/// What several files came to, once the rest of their lines went out, and whether all that failed was told there.
pub fn tell_all<W: Write + Drop>(
    answered: Result<Answer, Device>,
    writer: &mut BufWriter<W>,
) -> (Answer, bool)
    ensures answer { IfOk answered (λ answer. Flushes answer result.0) }
    ensures failed { OnErr answered (result ≡ (Answer.Device, false)) }
    ensures still { OnErr answered (writer.new ≡ writer.old) }
    ensures told { (result.1 ≡ true) ↔ (answered ≡ Ok result.0) }
    ensures same { Keeps (writer_contents W.contents writer.old) (writer_contents W.contents writer.new) }
    ensures empty { result.0 ≢ Answer.Device → result.0 ≢ Answer.Memory → writer_buffer writer.new ≡ [] }
{
    let Ok(answer) = answered else {
        return (Answer::Device, false);
    };
    let left = flush_answer(writer, answer);
    (left, left == answer)
}

/// Writes a text whole.
pub fn show<O: Write>(alloc: Global, text: &str, out: &mut O) -> Answer
    ensures { result ≢ Answer.Refused }
{
    let Ok(mut writer) = BufWriter::new(alloc, out) else {
        return Answer::Memory;
    };
    if writer.write_all(text.as_bytes()).is_err() {
        return Answer::Device;
    }
    flush_answer(&mut writer, Answer::Passed)
}

/// Writes the parser's own text: help to `out`, and faults of the command line to `err`.
pub fn explain<O: Write, E: Write>(
    alloc: Global,
    error: &Error,
    out: &mut Watched<O>,
    err: &mut E,
) -> u8
    ensures { Explains (kind_of error.now) result }
{
    if error.kind() == ErrorKind::OutOfMemory {
        return finish(Answer::Memory, err);
    }
    let Ok(text) = format!(in alloc; "{error}") else {
        return finish(Answer::Memory, err);
    };
    if error.use_stderr() {
        let _ = err.write_all(text.as_bytes());
        return USAGE;
    }
    let answer = show(alloc, &text, out);
    end(answer, None, out.reason(), false, err)
}
