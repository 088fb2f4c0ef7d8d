//! `check --explain` and `check --json`: whether a file passes, in words.

ghost use Rattle.std.specs.Prelude.{◌≡◌, ◌≢◌, ◌+◌, ◌≤◌, ℕ, List, length, IfOk, IsTrue};
ghost use Rattle.ncc_schema.specs.Device.{Puts};
ghost use Rattle.ncc_store.specs.Reading.{ReadsOnly};
ghost use Rattle.ncc_schema.specs.Schema.{Legal, places_of};
ghost use Rattle.ncc_layout.specs.Sizes.{AreSizes};
ghost use Rattle.ncc_check.specs.Examining.{HasSizes};
ghost use Rattle.ncc_check.specs.FromStore.{IsBegun, ReadsFew, calls_for};
ghost use Rattle.ncc_check.specs.Passes.{HasOwnElements};
ghost use Rattle.ncc_answers.specs.Answers.{Fails};
ghost use Rattle.ncc_explain.specs.Explaining.{AreExamined, ExplainsInto, HasHeaderFault, IsExamined, IsToldText, ReadsTwice, calls_twice, header_fault_told, layout_fault_told, report_told};

use crate::examining::{Examined, examine};
use crate::objects::{header_fault_object, layout_fault_object, report_object};
use crate::site::Site;
use crate::telling::{told_header_fault, told_layout_fault, told_report};
use ncc_answers::{Answer, answer_of_report, answer_of_sent};
use ncc_check::{Checked, Unplaced, laws};
use ncc_header::{Fault, Sink};
use ncc_json::Wording;
use ncc_lines::SendError;
use ncc_places::send_text;
use ncc_store::Store;
use std::alloc::{AllocError, Global};

/// The text of what is told of a file that passes.
fn report_text(alloc: Global, found: &Checked, wording: Wording) -> Result<Vec<u8>, AllocError>
    requires begun { IsBegun found.now.header }
    requires sizes { AreSizes found.now.header.schema found.now.sizes }
    ensures { IfOk result (λ v. v.items ≡ report_told wording found.now.header found.now.report) }
{
    match wording {
        Wording::Words => told_report(alloc, found),
        Wording::Members => report_object(alloc, found),
    }
}

/// The text of what is told of a file whose layout has a fault.
fn layout_fault_text(
    alloc: Global,
    found: &Unplaced,
    wording: Wording,
) -> Result<Vec<u8>, AllocError>
    requires legal { Legal found.now.header.schema (places_of found.now.header.places) }
    requires sizes { HasSizes found.now.header found.now.fault.kind found.now.sizes }
    ensures { IfOk result (λ v. v.items
        ≡ layout_fault_told wording found.now.header found.now.file_length found.now.fault) }
{
    match wording {
        Wording::Words => told_layout_fault(alloc, found),
        Wording::Members => layout_fault_object(alloc, found),
    }
}

/// The text of what is told of a file whose header has a fault.
fn header_fault_text(
    alloc: Global,
    limit: u64,
    fault: Fault,
    site: &Site,
    wording: Wording,
) -> Result<Vec<u8>, AllocError>
    ensures { IfOk result (λ v. v.items ≡ header_fault_told wording limit fault site.now) }
{
    match wording {
        Wording::Words => told_header_fault(alloc, limit, fault, site),
        Wording::Members => header_fault_object(alloc, limit, fault, site),
    }
}

/// The text of what was found, and the answer: Passed or Refused.
fn told_of(
    alloc: Global,
    found: Examined,
    limit: u64,
    strict: bool,
    wording: Wording,
) -> Result<(Vec<u8>, Answer), AllocError>
    requires { IsExamined found }
    ensures told { IfOk result (λ r. (bytes : List ℕ) → AreExamined bytes limit found
        → IsToldText wording bytes limit strict r.1 r.0.items) }
    ensures answer { IfOk result (λ r. (r.1 ≢ Answer.Device) × (r.1 ≢ Answer.Memory)) }
{
    match found {
        Examined::Passing(found) => Ok((
            report_text(alloc, &found, wording)?,
            answer_of_report(strict, &found.report),
        )),
        Examined::Unplaced(found) => Ok((
            layout_fault_text(alloc, &found, wording)?,
            Answer::Refused,
        )),
        Examined::Headless(fault, site) => Ok((
            header_fault_text(alloc, limit, fault, &site, wording)?,
            Answer::Refused,
        )),
    }
}

/// Writes what `check_engine` writes, and behind each fault and note the part of the header that it is in, its numbers
/// and its rule; or as members of a JSON object. All of it is in memory before any of it is sent. The front of a header
/// that has a fault is read once more, up to the fault.
pub fn explain_engine<S: Store, W: Sink>(
    alloc: Global,
    store: &mut S,
    limit: u64,
    strict: bool,
    wording: Wording,
    sink: &mut W,
) -> Answer
    ensures explains { IsTrue S.tells_bytes → (out : List ℕ) × Puts (W.put sink.old) (W.put sink.new) out
        × ExplainsInto wording (S.bytes store.old) limit strict result out }
    ensures memory { result ≡ Answer.Memory → sink.new ≡ sink.old }
    ensures own { IsTrue S.tells_bytes → result ≡ Answer.Passed → HasOwnElements (S.bytes store.old) limit }
    ensures store { ReadsOnly S.Store store.old store.new (Fails W.Sink sink.old sink.new result) S.tells_bytes
        (calls_twice (length (S.bytes store.old)) limit) limit }
    ensures calls { IsTrue S.tells_bytes → ¬ HasHeaderFault (S.bytes store.old) limit
        → S.calls store.new ≤ S.calls store.old + calls_for (length (S.bytes store.old)) limit }
    ensures once { IsTrue S.tells_bytes → ¬ HasHeaderFault (S.bytes store.old) limit
        → ReadsFew S.Store store.old store.new (S.bytes store.old) limit 1 }
    ensures settled { IsTrue S.tells_bytes → ReadsTwice S.Store store.old store.new (S.bytes store.old) limit }
{
    laws::passing_elements_are_apart();
    let found = match examine(alloc, store, limit) {
        Ok(found) => found,
        Err(SendError::Device) => return Answer::Device,
        Err(SendError::Memory) => return Answer::Memory,
    };
    match told_of(alloc, found, limit, strict, wording) {
        Ok((text, answer)) => answer_of_sent(send_text(&text, sink), answer),
        Err(_) => Answer::Memory,
    }
}
