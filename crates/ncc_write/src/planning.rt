//! The schema of an open file in another version.

ghost use Rattle.std.specs.Prelude.{◌≡◌, IfOk};
ghost use Rattle.ncc_layout.specs.Placed.{records_of_file};
ghost use Rattle.ncc_check.specs.Files.{schema_of, placed_of};
ghost use Rattle.ncc_build.specs.Builds.{schema_of as planned_schema};
ghost use Rattle.ncc_build.specs.Building.{RebuildsAs};
ghost use Rattle.ncc_write.specs.Planned.{IsPlanned};

use ncc_build::{Built, WriteFault, rebuilt};
use ncc_check::NcFile;
use ncc_store::Store;
use ncc_values::Version;
use std::alloc::Global;

/// The schema of an open file built anew in another version, with the file's records. It is refused as `rebuilt` says:
/// for the first dimension, attribute or variable that the version can't tell or that breaks a rule of the builder's,
/// in the order of a header; then for the number of records, a size, or the place of a variable.
#[tactic(auto, using(crate::proofs::PlannedSo::planned_so))]
pub fn planned<S: Store>(
    alloc: Global,
    file: &NcFile<S>,
    version: Version,
) -> Result<Built, WriteFault>
    ensures planned { IfOk result (λ b. IsPlanned (schema_of file.now) (placed_of file.now) (planned_schema b)) }
    ensures version { IfOk result (λ b. (planned_schema b).version ≡ version) }
    ensures judged { RebuildsAs version (schema_of file.now) (records_of_file (placed_of file.now)) result }
{
    rebuilt(alloc, file.schema(), version, file.records())
}
