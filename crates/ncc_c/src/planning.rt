//! A file that is to be written, by numbers.

ghost use Rattle.std.specs.Prelude.{◌≡◌, ◌≤◌, length, map, take, MatchOption};
ghost use Rattle.ncc_values.specs.Version.{byte_of};
ghost use Rattle.ncc_values.specs.declared.version.Version.{Version};
ghost use Rattle.ncc_layout.specs.Placed.{vars_of};
ghost use Rattle.ncc_c.specs.Planning.{NoSchema, PlansBy, PutsHeader, PutsPlaces, no_plan, numbers_of, place_row};

use crate::describing::{rows_fit, schema_by};
use crate::outcome::{MISUSED, NO_ROOM, Outcome, PASSES, of_write_fault, outcome_of};
use crate::rows::{AttrRow, DimRow, VarRow};
use ncc_build::WriteFault;
use ncc_layout::PlacedVar;
use ncc_plan::{Plan, file_plan};
use ncc_values::Version;
use std::alloc::Global;

/// Where a variable goes: its first byte, and what it has in one record, without padding.
#[repr(C)]
#[derive(Clone, Copy, Debug, PartialEq, Eq)]
pub struct PlaceRow {
    pub begin: u64,
    pub slab: u64,
}

/// What `ncc_plan` and `ncc_encode` answer: the lengths of the header, of a record and of the file, and how many
/// variables there are.
#[repr(C)]
#[derive(Clone, Copy, Debug, PartialEq, Eq)]
pub struct Planned {
    pub outcome: Outcome,
    pub header_length: u64,
    pub record_size: u64,
    pub file_length: u64,
    pub vars: u64,
}

/// An answer with nothing but an outcome.
fn without_plan(outcome: Outcome) -> Planned
    ensures { result ≡ no_plan outcome }
{
    Planned {
        outcome,
        header_length: 0,
        record_size: 0,
        file_length: 0,
        vars: 0,
    }
}

/// The numbers of a plan.
fn numbers_of(plan: &Plan, outcome: Outcome) -> Planned
    ensures { result ≡ numbers_of plan.now outcome }
{
    Planned {
        outcome,
        header_length: plan.header.len() as u64,
        record_size: plan.placed.record_size(),
        file_length: plan.file_length,
        vars: plan.placed.vars().len() as u64,
    }
}

/// The version with this number.
fn version_of(number: u64) -> Option<Version>
    ensures { MatchOption result ((v : Version) → byte_of v ≡ number → ⊥) (λ v. byte_of v ≡ number) }
{
    if number > 5 {
        return None;
    }
    Version::from_byte(number as u8)
}

/// The plan of the schema that the rows give, with so many records.
pub fn plan_by(
    alloc: Global,
    version: u64,
    records: u64,
    text: &[u8],
    dims: &[DimRow],
    attrs: &[AttrRow],
    vars: &[VarRow],
    ids: &[u64],
) -> Result<Plan, Outcome>
    ensures { PlansBy version records text.now dims.now attrs.now vars.now ids.now result }
{
    let Some(version) = version_of(version) else {
        return Err(outcome_of(MISUSED, 0, 0));
    };
    if !rows_fit(text, dims, attrs, vars, ids) {
        return Err(outcome_of(MISUSED, 0, 0));
    }
    let Ok(schema) = schema_by(alloc, version, text, dims, attrs, vars, ids) else {
        return Err(of_write_fault(WriteFault::Memory));
    };
    match file_plan(alloc, &schema, version, records) {
        Ok(plan) => Ok(plan),
        Err(fault) => Err(of_write_fault(fault)),
    }
}

fn place_row(var: &PlacedVar) -> PlaceRow
    ensures { result ≡ place_row var.now }
{
    PlaceRow {
        begin: var.extent.begin,
        slab: var.extent.slab,
    }
}

/// Puts the places of variables into rows that have room for them.
fn put_rows(vars: &[PlacedVar], out: &mut [PlaceRow])
    requires { length vars.now ≤ length out.old }
    ensures { take (length vars.now) out.new ≡ map place_row vars.now }
{
    for k in 0..vars.len() {
        out[k] = place_row(&vars[k]);
    }
}

/// Puts the places of a plan.
pub fn put_places(answer: &Result<Plan, Outcome>, out: &mut [PlaceRow]) -> Planned
    ensures { PutsPlaces answer.now out.new result }
{
    let plan = match answer {
        Ok(plan) => plan,
        Err(outcome) => return without_plan(*outcome),
    };
    let vars = plan.placed.vars();
    if out.len() < vars.len() {
        return numbers_of(plan, outcome_of(NO_ROOM, 0, 0));
    }
    put_rows(vars, out);
    numbers_of(plan, outcome_of(PASSES, 0, 0))
}

/// Puts the header's bytes of a plan.
pub fn put_header(answer: &Result<Plan, Outcome>, out: &mut [u8]) -> Planned
    ensures { PutsHeader answer.now out.new result }
{
    let plan = match answer {
        Ok(plan) => plan,
        Err(outcome) => return without_plan(*outcome),
    };
    let length = plan.header.len();
    if out.len() < length {
        return numbers_of(plan, outcome_of(NO_ROOM, 0, 0));
    }
    out[..length].copy_from_slice(&plan.header);
    numbers_of(plan, outcome_of(PASSES, 0, 0))
}
