//! What is found of a file, with all that is told of it.

ghost use Rattle.std.specs.Prelude.{◌≡◌, ◌+◌, ◌≤◌, length, max, true, IfOk, IsTrue};
ghost use Rattle.ncc_store.specs.Reading.{ReadsOnly};
ghost use Rattle.ncc_header.specs.Answers.{Stops};
ghost use Rattle.ncc_check.specs.FromStore.{ReadsFew, calls_for, reads_for};
ghost use Rattle.ncc_explain.specs.Explaining.{AreExamined, SendErrorCounts, HasHeaderFault, IsExamined, ReadsTwice, calls_twice};

use crate::site::{Site, site_of};
use ncc_check::{Checked, Unplaced, Unsound, check_with_header};
use ncc_header::Fault;
use ncc_header::laws::{header_or_stop, stop_stays};
use ncc_lines::SendError;
use ncc_store::{Store, laws as store_laws};
use std::alloc::Global;

/// What is found of a file.
#[derive(Drop)]
pub enum Examined {
    /// It passes.
    Passing(Checked),
    /// Its layout has a fault.
    Unplaced(Unplaced),
    /// Its header has a fault.
    Headless(Fault, Site),
}

/// What is found of a file whose header has this fault.
fn headless<S: Store>(
    alloc: Global,
    store: &mut S,
    limit: u64,
    fault: Fault,
) -> Result<Examined, SendError>
    ensures examines { IsTrue S.tells_bytes → Stops (S.bytes store.old) limit fault
        → IfOk result (AreExamined (S.bytes store.old) limit) }
    ensures begun { IfOk result IsExamined }
    ensures store { ReadsOnly S.Store store.old store.new (λ a b. SendErrorCounts a b result) true
        (2 + reads_for fault.offset) limit }
    ensures near { S.reach store.new ≤ max (S.reach store.old) (fault.offset + 8) }
{
    let site = site_of(alloc, store, limit, fault)?;
    Ok(Examined::Headless(fault, site))
}

/// What is found of the file in a store. The front of a header that has a fault is read once more, up to the fault.
pub fn examine<S: Store>(alloc: Global, store: &mut S, limit: u64) -> Result<Examined, SendError>
    ensures examines { IsTrue S.tells_bytes → IfOk result (AreExamined (S.bytes store.old) limit) }
    ensures begun { IfOk result IsExamined }
    ensures store { ReadsOnly S.Store store.old store.new (λ a b. SendErrorCounts a b result) S.tells_bytes
        (calls_twice (length (S.bytes store.old)) limit) limit }
    ensures calls { IsTrue S.tells_bytes → ¬ HasHeaderFault (S.bytes store.old) limit
        → S.calls store.new ≤ S.calls store.old + calls_for (length (S.bytes store.old)) limit }
    ensures once { IsTrue S.tells_bytes → ¬ HasHeaderFault (S.bytes store.old) limit
        → ReadsFew S.Store store.old store.new (S.bytes store.old) limit 1 }
    ensures settled { IsTrue S.tells_bytes → ReadsTwice S.Store store.old store.new (S.bytes store.old) limit }
{
    header_or_stop();
    stop_stays();
    store_laws::unmoved_calls_join::<S>();
    match check_with_header(alloc, store, limit) {
        Ok(found) => Ok(Examined::Passing(found)),
        Err(Unsound::Header(fault)) => headless(alloc, store, limit, fault),
        Err(Unsound::Layout(found)) => Ok(Examined::Unplaced(found)),
        Err(Unsound::Device) => Err(SendError::Device),
        Err(Unsound::Memory) => Err(SendError::Memory),
    }
}
