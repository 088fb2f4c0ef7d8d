//! `csv`: the names and rows of a selection.

ghost use Rattle.std.specs.Prelude.{◌≡◌, ◌≢◌, ◌+◌, ◌≤◌, ℕ, Bool, List, length, Option, None, Some, IsTrue};
ghost use Rattle.ncc_schema.specs.Device.{Puts};
ghost use Rattle.ncc_store.specs.Reading.{Rests};
ghost use Rattle.ncc_check.specs.Files.{store_of, schema_of, placed_of};
ghost use Rattle.ncc_check.specs.Passes.{HasOwnElements};
ghost use Rattle.ncc_csv.specs.Named.{IsFirstNamed};
ghost use Rattle.ncc_csv.specs.Picks.{pick_fault};
ghost use Rattle.ncc_layout.specs.Elements.{var_at};
ghost use Rattle.ncc_layout.specs.Placed.{vars_of};
ghost use Rattle.ncc_answers.specs.Answers.{Blames, ChecksBy, Writes};
ghost use Rattle.ncc_engines.specs.Selecting.{contents_in, refusal, value_calls, sheet_answer, IsCsvText, IsSelection, SelectsByFew, SelectsInto};
ghost use Rattle.ncc_answers.specs.declared.answer.Answer.{Answer as GivenAnswer};
ghost use Rattle.ncc_csv.specs.declared.pick.Pick.{Pick as GivenPick};
ghost use Rattle.ncc_slab.specs.declared.fault.SlabFault.{SlabFault as GivenFault};
ghost use Rattle.ncc_lines.specs.declared.style.FloatStyle.{FloatStyle as GivenStyle};

use ncc_answers::{Answer, answer_of_sent};
use ncc_check::{NcFile, Refusal, laws as check_laws, open};
use ncc_csv::{Pick, laws as csv_laws, send_refusal, send_sheet, var_named};
use ncc_header::Sink;
use ncc_header::laws::header_or_stop;
use ncc_lines::{FloatStyle, Progress, SendError, send_file_fault};
use ncc_slab::SlabFault;
use ncc_store::Store;
use std::alloc::Global;

/// Of any bytes one answer and one text at most is right.
fn one_csv_text()
    ensures { (bytes : List ℕ) (limit : ℕ) (name : List ℕ) (pick : GivenPick) (style : GivenStyle) (texts : Bool)
        (a b : GivenAnswer) (t u : List ℕ) → IsCsvText bytes limit name pick style texts a t
        → IsCsvText bytes limit name pick style texts b u → (a ≡ b) × (t ≡ u) }
{
    check_laws::passing_has_no_fault();
    header_or_stop();
}

/// What a selection comes to that was sent, or refused.
fn answer_of_sheet(sent: Result<bool, SendError>) -> Answer
    ensures { result ≡ sheet_answer sent }
{
    match sent {
        Ok(true) => Answer::Passed,
        Ok(false) => Answer::Refused,
        Err(SendError::Device) => Answer::Device,
        Err(SendError::Memory) => Answer::Memory,
    }
}

/// Writes the names and rows of a selection of an open file, or the line of its refusal.
fn select<S: Store, W: Sink, P: Progress>(
    alloc: Global,
    file: &mut NcFile<S>,
    name: &[u8],
    pick: Pick,
    style: FloatStyle,
    texts: bool,
    sink: &mut W,
    progress: &mut P,
) -> Answer
    ensures selects { IsTrue S.tells_bytes → (out : List ℕ) × Puts (W.put sink.old) (W.put sink.new) out × Writes
        (IsSelection (contents_in (S.bytes (store_of file.old)) (schema_of file.old) (placed_of file.old))
        name.now pick style texts)
        result out }
    ensures memory { (text : List ℕ) → IsSelection
        (contents_in (S.bytes (store_of file.old)) (schema_of file.old) (placed_of file.old))
        name.now pick style texts Answer.Refused text → result ≡ Answer.Memory → sink.new ≡ sink.old }
    ensures absent { IsFirstNamed (schema_of file.old).vars name.now None → result ≢ Answer.Memory }
    ensures unfit { (number : ℕ) → IsFirstNamed (schema_of file.old).vars name.now (Some number)
        → (fault : GivenFault) → pick_fault (length (var_at (vars_of (placed_of file.old)) number).shape) pick ≡ Some fault
        → result ≢ Answer.Memory }
    ensures rests { Rests S.Store (store_of file.old) (store_of file.new)
        (Blames W.Sink sink.old sink.new result) }
    ensures calls { (number : Option ℕ) → IsFirstNamed (schema_of file.old).vars name.now number
        → S.calls (store_of file.new) ≤ S.calls (store_of file.old) + value_calls
        (contents_in (S.bytes (store_of file.old)) (schema_of file.old) (placed_of file.old)) pick number }
    ensures refused { (number : Option ℕ) → IsFirstNamed (schema_of file.old).vars name.now number
        → (fault : GivenFault) → refusal (contents_in (S.bytes (store_of file.old)) (schema_of file.old)
        (placed_of file.old)) pick number ≡ Some fault → store_of file.new ≡ store_of file.old }
{
    check_laws::open_file_places_all(file);
    csv_laws::pick_fault_is_shape_fault();
    let Some(var) = var_named(file.schema().vars.as_slice(), name) else {
        return answer_of_sent(send_refusal(SlabFault::NoVariable, sink), Answer::Refused);
    };
    match pick.slab(alloc, file.placed().shape(var)) {
        Ok(slab) => answer_of_sheet(send_sheet(
            alloc, file, var, &slab, style, texts, sink, progress,
        )),
        Err(fault) => {
            if fault == SlabFault::Memory {
                return Answer::Memory;
            }
            answer_of_sent(send_refusal(fault, sink), Answer::Refused)
        }
    }
}

/// Writes the names and rows of what is picked of the first variable of this name, in a file that passes
/// with at most `limit` bytes of header, with floats in this style, and with `texts` the last dimension of a char
/// variable that has one as one field; or the line of its refusal, or of the file's first fault.
pub fn csv_engine<S: Store, W: Sink, P: Progress>(
    alloc: Global,
    store: S,
    limit: u64,
    name: &[u8],
    pick: Pick,
    style: FloatStyle,
    texts: bool,
    sink: &mut W,
    progress: &mut P,
) -> (S, Answer)
    ensures selects { IsTrue S.tells_bytes → (out : List ℕ) × Puts (W.put sink.old) (W.put sink.new) out
        × SelectsInto (S.bytes store) limit name.now pick style texts result.1 out }
    ensures memory { IsTrue S.tells_bytes → (text : List ℕ)
        → IsCsvText (S.bytes store) limit name.now pick style texts Answer.Refused text
        → result.1 ≡ Answer.Memory → sink.new ≡ sink.old }
    ensures own { IsTrue S.tells_bytes → result.1 ≡ Answer.Passed → HasOwnElements (S.bytes store) limit }
    ensures rests { Rests S.Store store result.0 (Blames W.Sink sink.old sink.new result.1) }
    ensures calls { IsTrue S.tells_bytes → (checked : ℕ) → ChecksBy (S.bytes store) limit checked
        → SelectsByFew S.Store store result.0 limit name.now pick checked }
{
    check_laws::passing_has_no_fault();
    header_or_stop();
    one_csv_text();
    match open(alloc, store, limit) {
        Ok(opened) => {
            let mut file = opened;
            let answer = select(alloc, &mut file, name, pick, style, texts, sink, progress);
            (file.into_store(), answer)
        }
        Err((store, refusal)) => match refusal {
            Refusal::Fault(fault) => {
                (
                    store,
                    answer_of_sent(send_file_fault(fault, sink), Answer::Refused),
                )
            }
            Refusal::Device => (store, Answer::Device),
            Refusal::Memory => (store, Answer::Memory),
        },
    }
}
