//! `check`: whether a file passes.

ghost use Rattle.std.specs.Prelude.{◌≡◌, ◌+◌, ◌≤◌, ℕ, List, length, IsTrue};
ghost use Rattle.ncc_schema.specs.Device.{Puts};
ghost use Rattle.ncc_store.specs.Reading.{ReadsOnly};
ghost use Rattle.ncc_check.specs.FromStore.{calls_for, ReadsFew};
ghost use Rattle.ncc_check.specs.Passes.{HasOwnElements};
ghost use Rattle.ncc_answers.specs.Answers.{Fails};
ghost use Rattle.ncc_engines.specs.Checking.{ChecksInto, IsFaultOf};

use ncc_answers::{Answer, answer_of_report, answer_of_sent};
use ncc_check::{Refusal, check, laws};
use ncc_header::Sink;
use ncc_lines::{send_file_fault, send_report};
use ncc_store::Store;
use std::alloc::Global;

/// Writes the line of a file that passes, of at most `limit` bytes of header, and those of its notes; or
/// the line of its first fault. A file with a note is refused where the check is strict.
pub fn check_engine<S: Store, W: Sink>(
    alloc: Global,
    store: &mut S,
    limit: u64,
    strict: bool,
    sink: &mut W,
) -> Answer
    ensures checks { IsTrue S.tells_bytes → (out : List ℕ) × Puts (W.put sink.old) (W.put sink.new) out
        × ChecksInto (S.bytes store.old) limit strict result out }
    ensures memory { IsTrue S.tells_bytes → (text : List ℕ) → IsFaultOf (S.bytes store.old) limit text
        → result ≡ Answer.Memory → sink.new ≡ sink.old }
    ensures own { IsTrue S.tells_bytes → result ≡ Answer.Passed → HasOwnElements (S.bytes store.old) limit }
    ensures store { ReadsOnly S.Store store.old store.new (Fails W.Sink sink.old sink.new result) S.tells_bytes
        (calls_for (length (S.bytes store.old)) limit) limit }
    ensures settled { IsTrue S.tells_bytes → ReadsFew S.Store store.old store.new (S.bytes store.old) limit 1 }
{
    laws::passing_has_no_fault();
    laws::one_report();
    match check(alloc, store, limit) {
        Ok(report) => answer_of_sent(
            send_report(alloc, &report, sink),
            answer_of_report(strict, &report),
        ),
        Err(Refusal::Fault(fault)) => answer_of_sent(send_file_fault(fault, sink), Answer::Refused),
        Err(Refusal::Device) => Answer::Device,
        Err(Refusal::Memory) => Answer::Memory,
    }
}
