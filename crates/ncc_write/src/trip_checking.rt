//! Whether a report says what a schema says.

ghost use Rattle.std.specs.Prelude.{◌≡◌, ◌↔◌, Ok, IsTrue, IfErr};
ghost use Rattle.ncc_check.specs.Checks.{Checks, Refuses};
ghost use Rattle.ncc_check.specs.declared.fault.FileFault.{FileFault};
ghost use Rattle.ncc_check.specs.declared.fault.Refusal.TheVariants.{Fault};
ghost use Rattle.ncc_check.specs.declared.report.Report.{Report};
ghost use Rattle.ncc_write.specs.Trips.{IsDue, IsSaid};
ghost use Rattle.ncc_write.specs.declared.trip_fault.TripFault.TheVariants.{Memory};

use crate::starting::records_of;
use crate::trip_fault::TripFault;
use ncc_check::{Refusal, Report, check};
use ncc_schema::Schema;
use ncc_store::Store;
use ncc_values::Version;
use std::alloc::Global;

/// What a report must say, beside that there is no note.
#[derive(Clone, Copy)]
pub(crate) struct Due {
    version: Version,
    records: u64,
    variables: usize,
}

/// What the report of a file of this schema must say.
pub(crate) fn due_by(schema: &Schema) -> Due
    ensures { IsDue schema.now result }
{
    Due {
        version: schema.version,
        records: records_of(schema.count),
        variables: schema.vars.len(),
    }
}

/// Whether a report says this, and has no note.
fn is_said(due: Due, report: &Report) -> bool
    ensures { IsTrue result ↔ IsSaid due report.now }
{
    report.version == due.version
        && report.records == due.records
        && report.variables == due.variables
        && report.notes.is_empty()
}

/// Checks a file whose bytes pass without a note.
pub(crate) fn passes<S: Store>(
    alloc: Global,
    store: &mut S,
    limit: u64,
    due: Due,
) -> Result<(), TripFault>
    requires told { IsTrue S.tells_bytes }
    requires said { (r : Report) → Checks (S.bytes store.old) limit (Ok r) → ∥ IsSaid due r ∥₁ }
    requires no_fault { (f : FileFault) → Refuses (S.bytes store.old) limit (Fault f) → ⊥ }
    ensures bytes { S.bytes store.new ≡ S.bytes store.old }
    ensures memory { IfErr result (λ e. e ≡ Memory) }
{
    match check(alloc, store, limit) {
        Ok(report) => {
            if is_said(due, &report) {
                return Ok(());
            }
            Err(TripFault::Differs)
        }
        Err(Refusal::Fault(_)) => Err(TripFault::Differs),
        Err(_) => Err(TripFault::Memory),
    }
}
