//! The schema of a conversion, and what is printed where there is none.

ghost use Rattle.std.specs.Prelude.{◌≡◌, Err, IfOk};
ghost use Rattle.ncc_values.specs.Failures.{Rose};
ghost use Rattle.ncc_layout.specs.Placed.{records_of_file};
ghost use Rattle.ncc_check.specs.Files.{schema_of, placed_of};
ghost use Rattle.ncc_build.specs.Builds.{schema_of as planned_schema};
ghost use Rattle.ncc_write.specs.Planned.{IsPlanned};
ghost use Rattle.ncc_engines.specs.Planning.{PlansInto};

use ncc_answers::{Answer, answer_of_sent};
use ncc_check::NcFile;
use ncc_convert::send_plan_refusal;
use ncc_header::Sink;
use ncc_store::Store;
use ncc_values::Version;
use ncc_write::{Built, WriteFault, planned};
use std::alloc::Global;

/// Plans what an open file holds in this version; or writes the line of what is against it.
pub fn plan<S: Store, W: Sink>(
    alloc: Global,
    file: &NcFile<S>,
    version: Version,
    sink: &mut W,
) -> Result<Built, Answer>
    ensures planned { IfOk result (λ b. IsPlanned (schema_of file.now) (placed_of file.now) (planned_schema b)) }
    ensures version { IfOk result (λ b. (planned_schema b).version ≡ version) }
    ensures still { IfOk result (λ b. sink.new ≡ sink.old) }
    ensures plans { PlansInto version (schema_of file.now) (records_of_file (placed_of file.now))
        (W.put sink.old) (W.put sink.new) result }
    ensures memory { result ≡ Err Answer.Memory → sink.new ≡ sink.old }
    ensures quiet { (result ≡ Err Answer.Device → ⊥) → W.failures sink.new ≡ W.failures sink.old }
    ensures device { result ≡ Err Answer.Device → Rose (W.failures sink.old) (W.failures sink.new) }
{
    let fault = match planned(alloc, file, version) {
        Ok(built) => return Ok(built),
        Err(fault) => fault,
    };
    if fault == WriteFault::Memory {
        return Err(Answer::Memory);
    }
    Err(answer_of_sent(send_plan_refusal(fault, sink), Answer::Refused))
}
