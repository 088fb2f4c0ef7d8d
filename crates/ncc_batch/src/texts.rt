//! The answer of a file, and its text in memory.

ghost use Rattle.std.specs.Prelude.{◌≡◌, ◌⊎◌, ◌+◌, ◌≤◌, ◌∷◌, ℕ, Bool, List, length, drop, IsTrue};
ghost use Rattle.ncc_values.specs.Failures.{Rose};
ghost use Rattle.ncc_schema.specs.Device.{Puts};
ghost use Rattle.ncc_store.specs.Reading.{ReadsOnly};
ghost use Rattle.ncc_check.specs.FromStore.{ReadsFew, calls_for};
ghost use Rattle.ncc_check.specs.Passes.{HasOwnElements};
ghost use Rattle.ncc_answers.specs.Answers.{Fails, Writes};
ghost use Rattle.ncc_json.specs.declared.wording.Wording.{Wording};
ghost use Rattle.ncc_explain.specs.Explaining.{HasHeaderFault};
ghost use Rattle.ncc_batch.specs.Answered.{TextFails, TextsOf, IsFaultIn, IsWhole, IsTextIn, IsTextAt, ReadsFor, WritesFor, calls_of, limit_of};

use crate::shelf::Shelf;
use ncc_answers::Work;
use ncc_engines::{Answer, check_engine, list_store_engine};
use ncc_explain::explain_engine;
use ncc_header::{Sink, WriteSink};
use ncc_json::Wording;
use ncc_lines::FloatStyle;
use ncc_listed::members_store_engine;
use ncc_picture::picture_engine;
use ncc_places::layout_engine;
use ncc_store::Store;
use std::alloc::Global;

/// Writes what the header of a store's file says.
fn write_list<S: Store, W: Sink>(
    alloc: Global,
    store: &mut S,
    limit: u64,
    style: FloatStyle,
    wording: Wording,
    sink: &mut W,
) -> Answer
    ensures told { IsTrue S.tells_bytes → (out : List ℕ) × Puts (W.put sink.old) (W.put sink.new) out
        × Writes (TextsOf (Work.List limit style wording) (S.bytes store.old)) result out }
    ensures memory { IsTrue S.tells_bytes → (text : List ℕ)
        → IsFaultIn (Work.List limit style wording) (S.bytes store.old) text
        → result ≡ Answer.Memory → sink.new ≡ sink.old }
    ensures whole { IsWhole (Work.List limit style wording) → result ≡ Answer.Memory → sink.new ≡ sink.old }
    ensures store { ReadsOnly S.Store store.old store.new (Fails W.Sink sink.old sink.new result) S.tells_bytes
        (calls_for (length (S.bytes store.old)) limit) limit }
    ensures settled { IsTrue S.tells_bytes → ReadsFew S.Store store.old store.new (S.bytes store.old) limit 1 }
{
    match wording {
        Wording::Words => list_store_engine(alloc, store, limit, style, sink),
        Wording::Members => members_store_engine(alloc, store, limit, style, sink),
    }
}

/// Writes the text of what is asked of a store's file.
pub fn write_text<S: Store, W: Sink>(
    alloc: Global,
    store: &mut S,
    work: Work,
    sink: &mut W,
) -> Answer
    ensures told { IsTrue S.tells_bytes → (out : List ℕ) × Puts (W.put sink.old) (W.put sink.new) out
        × WritesFor work (S.bytes store.old) result out }
    ensures memory { IsTrue S.tells_bytes → (text : List ℕ) → IsFaultIn work (S.bytes store.old) text
        → result ≡ Answer.Memory → sink.new ≡ sink.old }
    ensures whole { IsWhole work → result ≡ Answer.Memory → sink.new ≡ sink.old }
    ensures own { IsTrue S.tells_bytes → result ≡ Answer.Passed → (limit : ℕ) (strict : Bool)
        → (work ≡ Work.Check limit strict) ⊎ ((wording : Wording) × (work ≡ Work.Explain limit strict wording))
        → HasOwnElements (S.bytes store.old) limit }
    ensures store { ReadsOnly S.Store store.old store.new (Fails W.Sink sink.old sink.new result) S.tells_bytes
        (calls_of work (length (S.bytes store.old))) (limit_of work) }
    ensures calls { IsTrue S.tells_bytes → ¬ HasHeaderFault (S.bytes store.old) (limit_of work)
        → S.calls store.new ≤ S.calls store.old + calls_for (length (S.bytes store.old)) (limit_of work) }
    ensures once { IsTrue S.tells_bytes → ¬ HasHeaderFault (S.bytes store.old) (limit_of work)
        → ReadsFew S.Store store.old store.new (S.bytes store.old) (limit_of work) 1 }
    ensures settled { IsTrue S.tells_bytes
        → ReadsFor S.Store store.old store.new work (S.bytes store.old) }
{
    match work {
        Work::Check { limit, strict } => check_engine(alloc, store, limit, strict, sink),
        Work::Explain {
            limit,
            strict,
            wording,
        } => explain_engine(alloc, store, limit, strict, wording, sink),
        Work::List {
            limit,
            style,
            wording,
        } => write_list(alloc, store, limit, style, wording, sink),
        Work::Layout { limit, wording } => layout_engine(alloc, store, limit, wording, sink),
        Work::Picture { limit } => picture_engine(alloc, store, limit, sink),
    }
}

/// What is asked of a store's file, and its text, which is empty where the store failed or there was no memory.
#[tactic(auto, using(crate::proofs::Written::written))]
fn text_in<S: Store>(alloc: Global, store: &mut S, work: Work) -> (Answer, Vec<u8>)
    ensures told { IsTrue S.tells_bytes → IsTextIn work (S.bytes store.old) result.0 result.1.items }
    ensures store { ReadsOnly S.Store store.old store.new (TextFails result.0) S.tells_bytes
        (calls_of work (length (S.bytes store.old))) (limit_of work) }
    ensures calls { IsTrue S.tells_bytes → ¬ HasHeaderFault (S.bytes store.old) (limit_of work)
        → S.calls store.new ≤ S.calls store.old + calls_for (length (S.bytes store.old)) (limit_of work) }
    ensures once { IsTrue S.tells_bytes → ¬ HasHeaderFault (S.bytes store.old) (limit_of work)
        → ReadsFew S.Store store.old store.new (S.bytes store.old) (limit_of work) 1 }
    ensures settled { IsTrue S.tells_bytes
        → ReadsFor S.Store store.old store.new work (S.bytes store.old) }
{
    let mut sink = WriteSink::new(Vec::new(alloc));
    let answer = write_text(alloc, store, work, &mut sink);
    if sink.failures() > 0 || answer == Answer::Memory {
        return (Answer::Memory, Vec::new(alloc));
    }
    if answer == Answer::Device {
        return (Answer::Device, Vec::new(alloc));
    }
    (answer, sink.into_inner())
}

/// What is asked of the file of a path, and its text, which is empty where the file failed or there was no memory.
pub(crate) fn text_at<F: Shelf>(
    alloc: Global,
    shelf: &mut F,
    path: &[u8],
    work: Work,
) -> (Answer, Vec<u8>)
    requires { IsTrue F.tells → (rest : List (List ℕ)) × (F.left shelf.old ≡ path.now ∷ rest) }
    ensures told { IsTrue F.tells → IsTextAt work (F.file shelf.old path.now) result.0 result.1.items }
    ensures left { IsTrue F.tells → F.left shelf.new ≡ drop 1 (F.left shelf.old) }
    ensures quiet { (result.0 ≡ Answer.Device → ⊥) → F.failures shelf.new ≡ F.failures shelf.old }
    ensures file { F.file shelf.new ≡ F.file shelf.old }
    ensures device { result.0 ≡ Answer.Device → Rose (F.failures shelf.old) (F.failures shelf.new) }
    ensures grows { F.failures shelf.old ≤ F.failures shelf.new }
{
    let Some(opened) = shelf.open(path) else {
        return (Answer::Device, Vec::new(alloc));
    };
    let mut file = opened;
    let (answer, text) = text_in(alloc, &mut file, work);
    shelf.close(file, answer == Answer::Device);
    (answer, text)
}
