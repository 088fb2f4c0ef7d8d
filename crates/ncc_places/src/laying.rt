//! `layout`: where everything in a file lies.

ghost use Rattle.std.specs.Prelude.{◌≡◌, ◌≢◌, ℕ, List, length, Err, IfOk, IsTrue};
ghost use Rattle.ncc_schema.specs.Device.{Puts};
ghost use Rattle.ncc_store.specs.Reading.{ReadsOnly};
ghost use Rattle.ncc_check.specs.FromStore.{ReadsFew, calls_for};
ghost use Rattle.ncc_lines.specs.Sends.{Blames, SendsAll};
ghost use Rattle.ncc_answers.specs.Answers.{Fails};
ghost use Rattle.ncc_places.specs.Layouts.{LaysOut, fault_told};

use crate::measuring::measure;
use crate::telling::{fault_object, layout_told};
use ncc_answers::{Answer, answer_of_sent};
use ncc_check::{FileFault, Refusal, laws};
use ncc_header::laws::header_or_stop;
use ncc_header::{Sink, write_all};
use ncc_json::Wording;
use ncc_lines::{SendError, send_file_fault};
use ncc_store::Store;
use std::alloc::Global;

/// Sends a text, and takes no memory. After an `Err` a front of it is sent.
pub fn send_text<W: Sink>(text: &[u8], sink: &mut W) -> Result<(), SendError>
    ensures sent { SendsAll (W.put sink.old) (W.put sink.new) text.now result }
    ensures count { Blames (W.failures sink.old) (W.failures sink.new) result }
    ensures never { result ≢ Err SendError.Memory }
{
    write_all(sink, text)?;
    Ok(())
}

/// Sends a fault: its line takes no memory. After an `Err` a front of it is sent, and nothing where memory was refused.
fn send_fault<W: Sink>(
    alloc: Global,
    fault: FileFault,
    wording: Wording,
    sink: &mut W,
) -> Result<(), SendError>
    ensures sent { SendsAll (W.put sink.old) (W.put sink.new) (fault_told wording fault) result }
    ensures count { Blames (W.failures sink.old) (W.failures sink.new) result }
    ensures none { result ≡ Err SendError.Memory → sink.new ≡ sink.old }
    ensures never { wording ≡ Wording.Words → result ≢ Err SendError.Memory }
{
    match wording {
        Wording::Words => send_file_fault(fault, sink),
        Wording::Members => {
            let text = fault_object(alloc, fault)?;
            send_text(&text, sink)
        }
    }
}

/// Writes where everything lies in a file with a header of at most `limit` bytes none of whose variables is too large,
/// whatever faults its layout has, all of it in memory before any of it is sent; or its fault, of which the line takes no
/// memory. Both in lines or as members of a JSON object.
pub fn layout_engine<S: Store, W: Sink>(
    alloc: Global,
    store: &mut S,
    limit: u64,
    wording: Wording,
    sink: &mut W,
) -> Answer
    ensures lays { IsTrue S.tells_bytes → (out : List ℕ) × Puts (W.put sink.old) (W.put sink.new) out
        × LaysOut wording (S.bytes store.old) limit result out }
    ensures memory { result ≡ Answer.Memory → sink.new ≡ sink.old }
    ensures store { ReadsOnly S.Store store.old store.new (Fails W.Sink sink.old sink.new result) S.tells_bytes
        (calls_for (length (S.bytes store.old)) limit) limit }
    ensures settled { IsTrue S.tells_bytes → ReadsFew S.Store store.old store.new (S.bytes store.old) limit 1 }
{
    header_or_stop();
    laws::passing_has_no_fault();
    match measure(alloc, store, limit) {
        Ok(file) => match layout_told(alloc, &file, wording) {
            Ok(text) => answer_of_sent(send_text(&text, sink), Answer::Passed),
            Err(_) => Answer::Memory,
        },
        Err(Refusal::Fault(fault)) => answer_of_sent(
            send_fault(alloc, fault, wording, sink),
            Answer::Refused,
        ),
        Err(Refusal::Device) => Answer::Device,
        Err(Refusal::Memory) => Answer::Memory,
    }
}
