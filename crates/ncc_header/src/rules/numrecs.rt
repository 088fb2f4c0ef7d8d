//! The rule numrecs = NON_NEG | STREAMING.

ghost use Rattle.std.specs.Prelude.{◌≡◌, length};
ghost use Rattle.ncc_header.specs.Fields.{numrecs_of};
ghost use Rattle.ncc_values.specs.Version.{count_width_of};
ghost use Rattle.ncc_header.specs.declared.partial.Next.TheVariants as nexts;
ghost use Rattle.ncc_header.specs.Steps.{Steps};

use crate::fault::StepError;
use crate::partial::{Next, Partial};
use ncc_schema::{Count, streaming_mark};
use ncc_values::{Version, number};

/// numrecs = NON_NEG | STREAMING
pub fn judge_numrecs(version: Version, n: u64) -> Count
    ensures { result ≡ numrecs_of version n }
{
    if n == streaming_mark(version) {
        return Count::Streaming;
    }
    Count::Known(n)
}

/// The number of records: numrecs = NON_NEG | STREAMING
pub fn after_numrecs(partial: &mut Partial, at: u64, front: &[u8]) -> Result<Next, StepError>
    requires { length front.now ≡ count_width_of partial.old.lists.parts.version }
    ensures { Steps nexts.NumRecs partial.old at front.now result partial.new }
{
    let parts = &mut partial.lists.parts;
    parts.count = judge_numrecs(parts.version, number(front));
    Ok(Next::DimsTag)
}
