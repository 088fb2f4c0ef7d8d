//! Planning a file.

ghost use Rattle.std.specs.Prelude.{◌≡◌, IfErr, IfOk, length};
ghost use Rattle.ncc_schema.specs.Names.{header_length};
ghost use Rattle.ncc_schema.specs.Schema.{with_count};
ghost use Rattle.ncc_schema.specs.declared.schema.Count.TheVariants.{Known};
ghost use Rattle.ncc_layout.specs.Standard.{file_length};
ghost use Rattle.ncc_build.specs.Building.{RebuildsAs};
ghost use Rattle.ncc_build.specs.Builds.{schema_of};
ghost use Rattle.ncc_build.specs.Dataset.{with_version};
ghost use Rattle.ncc_plan.specs.Plans.{IsOfSchema, IsPlanOf};

use ncc_build::laws::built_is_writable;
use ncc_build::{Built, WriteFault, header_bytes, rebuilt};
use ncc_check::laws::passing_has_no_fault;
use ncc_front::{FrontRefusal, examine_front};
use ncc_header::laws::{header_is_begun, one_header};
use ncc_layout::laws::standard_places_keep_all_rules;
use ncc_layout::{Placed, SizeError, records_begin, sizes};
use ncc_schema::Schema;
use ncc_schema::laws::{canonical_header, one_length};
use ncc_values::Version;
use std::alloc::{AllocError, Global};

/// The header's bytes of a file that is to be written, the length of the file, and its variables at their places.
#[derive(Drop)]
pub struct Plan {
    pub header: Vec<u8>,
    pub file_length: u64,
    pub placed: Placed,
}

/// The length of the file: that of the header, of the fixed variables and of all records.
fn length_of(alloc: Global, built: &Built, header: u64, records: u64) -> Result<u64, AllocError>
    requires header { header ≡ header_length (schema_of built.now) }
    requires records { (schema_of built.now).count ≡ Known records }
    ensures { IfOk result (λ n. n ≡ file_length (schema_of built.now) records) }
{
    built_is_writable(built);
    let schema = built.schema();
    let found = match sizes(alloc, schema) {
        Ok(found) => found,
        Err(SizeError::TooLarge(_)) => unreachable!(),
        Err(SizeError::Memory) => return Err(AllocError),
    };
    let begin = records_begin(schema, found.rounded.as_slice(), header);
    Ok(begin + records * found.record_size)
}

/// The plan of a schema that was built.
fn plan_of(alloc: Global, built: &Built, records: u64) -> Result<Plan, AllocError>
    requires { (schema_of built.now).count ≡ Known records }
    ensures { IfOk result (IsPlanOf (schema_of built.now) records) }
{
    built_is_writable(built);
    canonical_header();
    one_length();
    header_is_begun();
    one_header();
    standard_places_keep_all_rules();
    passing_has_no_fault();
    let header = header_bytes(alloc, built)?;
    let length = header.len() as u64;
    let file_length = length_of(alloc, built, length, records)?;
    match examine_front(alloc, &header, file_length, length) {
        Ok(found) => Ok(Plan {
            header,
            file_length,
            placed: found.placed,
        }),
        Err(FrontRefusal::Fault(_)) => unreachable!(),
        Err(FrontRefusal::More(_)) => unreachable!(),
        Err(FrontRefusal::Memory) => Err(AllocError),
    }
}

/// The plan of a file with the same dimensions, attributes and variables in this version, with so many records: its
/// canonical header, with each variable at its standard place. It is refused where a builder's calls would be, in the
/// order of a header; then for the number of records, a size, or the place of a variable.
pub fn file_plan(
    alloc: Global,
    schema: &Schema,
    version: Version,
    records: u64,
) -> Result<Plan, WriteFault>
    ensures judged { RebuildsAs version schema.now records result }
    ensures refused { IfErr result IsOfSchema }
    ensures plan { IfOk result (IsPlanOf (with_count (with_version schema.now version) records) records) }
{
    let built = match rebuilt(alloc, schema, version, records) {
        Ok(built) => built,
        Err(fault) => return Err(fault),
    };
    Ok(plan_of(alloc, &built, records)?)
}
