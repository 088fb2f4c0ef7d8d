//! `layout --svg`: a picture of where everything in a file lies.

ghost use Rattle.std.specs.Prelude.{◌≡◌, ℕ, List, length, IsTrue};
ghost use Rattle.ncc_schema.specs.Device.{Puts};
ghost use Rattle.ncc_store.specs.Reading.{ReadsOnly};
ghost use Rattle.ncc_check.specs.FromStore.{ReadsFew, calls_for};
ghost use Rattle.ncc_answers.specs.Answers.{Fails};
ghost use Rattle.ncc_picture.specs.Pictures.{Pictures};

use crate::whole::picture_text;
use ncc_answers::{Answer, answer_of_sent};
use ncc_check::{Refusal, laws};
use ncc_header::Sink;
use ncc_header::laws::header_or_stop;
use ncc_lines::send_file_fault;
use ncc_places::{measure, send_text};
use ncc_store::Store;
use std::alloc::Global;

/// Writes a picture of where everything lies in a file with a header of at most `limit` bytes none of whose variables
/// is too large, whatever faults its layout has. All of it is in memory before any of it is sent. Or writes the line of
/// the file's fault, which takes no memory.
pub fn picture_engine<S: Store, W: Sink>(
    alloc: Global,
    store: &mut S,
    limit: u64,
    sink: &mut W,
) -> Answer
    ensures pictures { IsTrue S.tells_bytes → (out : List ℕ) × Puts (W.put sink.old) (W.put sink.new) out
        × Pictures (S.bytes store.old) limit result out }
    ensures memory { result ≡ Answer.Memory → sink.new ≡ sink.old }
    ensures store { ReadsOnly S.Store store.old store.new (Fails W.Sink sink.old sink.new result) S.tells_bytes
        (calls_for (length (S.bytes store.old)) limit) limit }
    ensures settled { IsTrue S.tells_bytes → ReadsFew S.Store store.old store.new (S.bytes store.old) limit 1 }
{
    header_or_stop();
    laws::passing_has_no_fault();
    match measure(alloc, store, limit) {
        Ok(file) => match picture_text(alloc, &file) {
            Ok(text) => answer_of_sent(send_text(&text, sink), Answer::Passed),
            Err(_) => Answer::Memory,
        },
        Err(Refusal::Fault(fault)) => answer_of_sent(send_file_fault(fault, sink), Answer::Refused),
        Err(Refusal::Device) => Answer::Device,
        Err(Refusal::Memory) => Answer::Memory,
    }
}
