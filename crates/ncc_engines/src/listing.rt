//! `list`: what the header alone says.

ghost use Rattle.std.specs.Prelude.{◌≡◌, ◌+◌, ◌≤◌, ℕ, List, length, Some, IfSome, IsTrue};
ghost use Rattle.ncc_schema.specs.Device.{AsksFew, LosesAtMost, Puts};
ghost use Rattle.ncc_store.specs.Reading.{ReadsOnly};
ghost use Rattle.ncc_check.specs.FromStore.{calls_for, ReadsFew};
ghost use Rattle.ncc_schema.specs.declared.schema.Header.{Header as TheHeader};
ghost use Rattle.ncc_header.specs.Answers.{Begins, IsLeft};
ghost use Rattle.ncc_answers.specs.Answers.{Fails};
ghost use Rattle.ncc_engines.specs.Listing.{IsFaultOf, Lists};

use ncc_answers::{Answer, answer_of_sent};
use ncc_check::{Refusal, header_in};
use ncc_header::{HeaderError, Sink, Source, laws, read_header};
use ncc_lines::{FloatStyle, send_fault, send_file_fault, send_header};
use ncc_store::Store;
use std::alloc::Global;

/// Writes the lines of the header at the front of the source, of at most `limit` bytes, with its floats
/// in this style; or the line of its fault. Of a source that tells its bytes exactly the header is read
/// where it passed, and no byte past the limit otherwise; and it is called at most once more than bytes are read.
pub fn list_engine<R: Source, W: Sink>(
    alloc: Global,
    source: &mut R,
    limit: u64,
    style: FloatStyle,
    sink: &mut W,
) -> Answer
    ensures lists { IfSome (R.left source.old) (λ input. (out : List ℕ)
        × Puts (W.put sink.old) (W.put sink.new) out × Lists input limit style result out) }
    ensures memory { (input text : List ℕ) → R.left source.old ≡ Some input → IsFaultOf input limit text
        → result ≡ Answer.Memory → sink.new ≡ sink.old }
    ensures exactly { result ≡ Answer.Passed → IfSome (R.left source.old) (λ input.
        (h : TheHeader) × Begins input limit h × IsLeft (R.left source.new) input h) }
    ensures most { LosesAtMost (R.left source.old) (R.left source.new) limit }
    ensures calls { AsksFew (R.left source.old) (R.left source.new) (R.calls source.old) (R.calls source.new) }
    ensures fails { Fails W.Sink sink.old sink.new result (R.failures source.old) (R.failures source.new) }
{
    laws::header_or_stop();
    match read_header(alloc, source, limit) {
        Ok(header) => answer_of_sent(send_header(alloc, &header, style, sink), Answer::Passed),
        Err(HeaderError::Fault(fault)) => answer_of_sent(send_fault(fault, sink), Answer::Refused),
        Err(HeaderError::Device) => Answer::Device,
        Err(HeaderError::Memory) => Answer::Memory,
    }
}

/// Writes the same of the file that a store holds. The store is asked for its length once, and for pieces of at most
/// 65,536 bytes.
pub fn list_store_engine<S: Store, W: Sink>(
    alloc: Global,
    store: &mut S,
    limit: u64,
    style: FloatStyle,
    sink: &mut W,
) -> Answer
    ensures lists { IsTrue S.tells_bytes → (out : List ℕ) × Puts (W.put sink.old) (W.put sink.new) out
        × Lists (S.bytes store.old) limit style result out }
    ensures memory { IsTrue S.tells_bytes → (text : List ℕ) → IsFaultOf (S.bytes store.old) limit text
        → result ≡ Answer.Memory → sink.new ≡ sink.old }
    ensures store { ReadsOnly S.Store store.old store.new (Fails W.Sink sink.old sink.new result) S.tells_bytes
        (calls_for (length (S.bytes store.old)) limit) limit }
    ensures settled { IsTrue S.tells_bytes → ReadsFew S.Store store.old store.new (S.bytes store.old) limit 1 }
{
    laws::header_or_stop();
    match header_in(alloc, store, limit) {
        Ok(header) => answer_of_sent(send_header(alloc, &header, style, sink), Answer::Passed),
        Err(Refusal::Fault(fault)) => answer_of_sent(send_file_fault(fault, sink), Answer::Refused),
        Err(Refusal::Device) => Answer::Device,
        Err(Refusal::Memory) => Answer::Memory,
    }
}
