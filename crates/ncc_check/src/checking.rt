//! The verdict on a file.

ghost use Rattle.std.specs.Prelude.{◌≡◌, ℕ, IfOk, ◌+◌, ◌≤◌, length, IsTrue, OnOk, Err};
ghost use Rattle.ncc_store.specs.Reading.{ReadsOnly};
ghost use Rattle.ncc_check.specs.Passes.{HasOwnElements};
ghost use Rattle.ncc_check.specs.Checks.{Checks, CountsAs, Reports};
ghost use Rattle.ncc_check.specs.Examining.{AreBegun, Examines, UnsoundCounts};
ghost use Rattle.ncc_check.specs.FromStore.{calls_for, IsBegun, ReadsFew};
ghost use Rattle.ncc_layout.specs.Extents.{record_count};
ghost use Rattle.ncc_layout.specs.Sizes.{AreSizes};
ghost use Rattle.ncc_schema.specs.Schema.{places_of};
ghost use Rattle.ncc_schema.specs.declared.schema.Header.{Header as TheHeader};

use crate::examining::{CountedFile, Unsound, judge};
use crate::fault::Refusal;
use crate::laws::passing_elements_are_apart;
use crate::notes::notes_of;
use crate::report::Report;
use ncc_header::Header;
use ncc_layout::Sizes;
use ncc_store::Store;
use ncc_values::Seq;
use std::alloc::{AllocError, Global};

/// A file that passes: its header, the sizes of its variables and its report.
#[derive(Drop)]
pub struct Checked {
    pub header: Header,
    pub sizes: Sizes,
    pub report: Report,
}

/// The report of a file with this header and so many records.
fn report_of(
    alloc: Global,
    header: &Header,
    sizes: &Sizes,
    records: u64,
) -> Result<Report, AllocError>
    requires begun { IsBegun header.now }
    requires sizes { AreSizes header.now.schema sizes.now }
    ensures { IfOk result (λ r. (file : ℕ)
        → records ≡ record_count header.now.schema (places_of header.now.places) file → Reports header.now file r) }
{
    let notes = notes_of(alloc, header, sizes)?;
    Ok(Report {
        version: header.schema.version,
        records,
        variables: header.schema.vars.len(),
        notes: Seq::from_vec(notes),
    })
}

/// What `check` finds of the file in a store, with its header: exactly the notes that are due, or its first fault. The
/// store is asked for its length once, and for pieces of at most 65,536 bytes.
pub fn check_with_header<S: Store>(
    alloc: Global,
    store: &mut S,
    limit: u64,
) -> Result<Checked, Unsound>
    ensures examines { IsTrue S.tells_bytes → Examines (S.bytes store.old) limit result }
    ensures few { IsTrue S.tells_bytes → length (S.bytes store.old) ≤ 8 → result ≡ Err Unsound.Memory → ⊥ }
    ensures begun { AreBegun result }
    ensures store { ReadsOnly S.Store store.old store.new (λ a b. UnsoundCounts a b result) S.tells_bytes
        (calls_for (length (S.bytes store.old)) limit) limit }
    ensures settled { IsTrue S.tells_bytes → ReadsFew S.Store store.old store.new (S.bytes store.old) limit 1 }
{
    let found = judge(alloc, store, limit)?;
    let (header, sizes) = (found.header, found.sizes);
    let Ok(report) = report_of(alloc, &header, &sizes, found.records) else {
        return Err(Unsound::Memory);
    };
    Ok(Checked {
        header,
        sizes,
        report,
    })
}

/// Whether the file in a store passes: its header, of at most `limit` bytes, is one by the grammar,
/// and all layout rules hold. Then its report, with exactly the notes that are due; else its first
/// fault. The store is asked for its length once, and for pieces of at most 65,536 bytes.
pub fn check<S: Store>(alloc: Global, store: &mut S, limit: u64) -> Result<Report, Refusal>
    ensures answers { IsTrue S.tells_bytes → Checks (S.bytes store.old) limit result }
    ensures few { IsTrue S.tells_bytes → length (S.bytes store.old) ≤ 8 → result ≡ Err Refusal.Memory → ⊥ }
    ensures own { IsTrue S.tells_bytes → OnOk result (HasOwnElements (S.bytes store.old) limit) }
    ensures some { IfOk result (λ r. (h : TheHeader) × (file : ℕ) × IsBegun h × Reports h file r) }
    ensures store { ReadsOnly S.Store store.old store.new (λ a b. CountsAs a b result) S.tells_bytes
        (calls_for (length (S.bytes store.old)) limit) limit }
    ensures settled { IsTrue S.tells_bytes → ReadsFew S.Store store.old store.new (S.bytes store.old) limit 1 }
{
    passing_elements_are_apart();
    let CountedFile {
        header,
        sizes,
        records,
    } = judge(alloc, store, limit)?;
    Ok(report_of(alloc, &header, &sizes, records)?)
}
