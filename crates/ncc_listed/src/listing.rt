//! `list --json`: what the header alone says, as the members of an object.

ghost use Rattle.std.specs.Prelude.{◌≡◌, ℕ, List, length, Err, IfSome, IsTrue};
ghost use Rattle.json.specs.Print.{print};
ghost use Rattle.ncc_schema.specs.Device.{AsksFew, LosesAtMost, Puts};
ghost use Rattle.ncc_schema.specs.declared.schema.Header.{Header as TheHeader};
ghost use Rattle.ncc_store.specs.Reading.{ReadsOnly};
ghost use Rattle.ncc_header.specs.Answers.{Begins, IsLeft};
ghost use Rattle.ncc_check.specs.FromStore.{ReadsFew, calls_for};
ghost use Rattle.ncc_lines.specs.Sends.{Blames, SendsAll};
ghost use Rattle.ncc_answers.specs.Answers.{Fails};
ghost use Rattle.ncc_places.specs.Members.{file_fault_members};
ghost use Rattle.ncc_listed.specs.Listed.{ListsMembers};
ghost use Rattle.ncc_listed.specs.Members.{list_members};

use crate::telling::header_told;
use ncc_answers::{Answer, answer_of_sent};
use ncc_check::{FileFault, Refusal, header_in};
use ncc_header::{Header, HeaderError, Sink, Source, laws, read_header};
use ncc_lines::{FloatStyle, SendError};
use ncc_places::{fault_object, send_text};
use ncc_store::Store;
use std::alloc::Global;

/// Sends the members of a header, all of them in memory before any is sent. After an `Err` a front of them is sent.
fn send_members<W: Sink>(
    alloc: Global,
    header: &Header,
    style: FloatStyle,
    sink: &mut W,
) -> Result<(), SendError>
    ensures sent { SendsAll (W.put sink.old) (W.put sink.new) (print (list_members style header.now)) result }
    ensures count { Blames (W.failures sink.old) (W.failures sink.new) result }
    ensures none { result ≡ Err SendError.Memory → sink.new ≡ sink.old }
{
    let text = header_told(alloc, header, style)?;
    send_text(&text, sink)
}

/// Sends the members of a fault in the same way.
fn send_fault<W: Sink>(alloc: Global, fault: FileFault, sink: &mut W) -> Result<(), SendError>
    ensures sent { SendsAll (W.put sink.old) (W.put sink.new) (print (file_fault_members fault)) result }
    ensures count { Blames (W.failures sink.old) (W.failures sink.new) result }
    ensures none { result ≡ Err SendError.Memory → sink.new ≡ sink.old }
{
    let text = fault_object(alloc, fault)?;
    send_text(&text, sink)
}

/// Writes the members of the header at the front of the source, of at most `limit` bytes, with its floats in this style;
/// or those of its fault. All of them are in memory before any is sent. Of a source that tells its bytes exactly the
/// header is read where it passed, and no byte past the limit otherwise; and it is called at most once more than bytes
/// are read.
pub fn members_engine<R: Source, W: Sink>(
    alloc: Global,
    source: &mut R,
    limit: u64,
    style: FloatStyle,
    sink: &mut W,
) -> Answer
    ensures lists { IfSome (R.left source.old) (λ input. (out : List ℕ)
        × Puts (W.put sink.old) (W.put sink.new) out × ListsMembers input limit style result out) }
    ensures memory { result ≡ Answer.Memory → sink.new ≡ sink.old }
    ensures exactly { result ≡ Answer.Passed → IfSome (R.left source.old) (λ input.
        (h : TheHeader) × Begins input limit h × IsLeft (R.left source.new) input h) }
    ensures most { LosesAtMost (R.left source.old) (R.left source.new) limit }
    ensures calls { AsksFew (R.left source.old) (R.left source.new) (R.calls source.old) (R.calls source.new) }
    ensures fails { Fails W.Sink sink.old sink.new result (R.failures source.old) (R.failures source.new) }
{
    laws::header_or_stop();
    match read_header(alloc, source, limit) {
        Ok(header) => answer_of_sent(send_members(alloc, &header, style, sink), Answer::Passed),
        Err(HeaderError::Fault(fault)) => answer_of_sent(
            send_fault(alloc, FileFault::Header(fault), sink),
            Answer::Refused,
        ),
        Err(HeaderError::Device) => Answer::Device,
        Err(HeaderError::Memory) => Answer::Memory,
    }
}

/// Writes the same of the file that a store holds. The store is asked for its length once, and for pieces of at most
/// 65,536 bytes.
pub fn members_store_engine<S: Store, W: Sink>(
    alloc: Global,
    store: &mut S,
    limit: u64,
    style: FloatStyle,
    sink: &mut W,
) -> Answer
    ensures lists { IsTrue S.tells_bytes → (out : List ℕ) × Puts (W.put sink.old) (W.put sink.new) out
        × ListsMembers (S.bytes store.old) limit style result out }
    ensures memory { result ≡ Answer.Memory → sink.new ≡ sink.old }
    ensures store { ReadsOnly S.Store store.old store.new (Fails W.Sink sink.old sink.new result) S.tells_bytes
        (calls_for (length (S.bytes store.old)) limit) limit }
    ensures settled { IsTrue S.tells_bytes → ReadsFew S.Store store.old store.new (S.bytes store.old) limit 1 }
{
    laws::header_or_stop();
    match header_in(alloc, store, limit) {
        Ok(header) => answer_of_sent(send_members(alloc, &header, style, sink), Answer::Passed),
        Err(Refusal::Fault(fault)) => answer_of_sent(
            send_fault(alloc, fault, sink),
            Answer::Refused,
        ),
        Err(Refusal::Device) => Answer::Device,
        Err(Refusal::Memory) => Answer::Memory,
    }
}
