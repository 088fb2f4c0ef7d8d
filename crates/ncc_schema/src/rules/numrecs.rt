//! The rule numrecs = NON_NEG | STREAMING.

ghost use Rattle.std.specs.Prelude.{◌<◌};
ghost use Rattle.ncc_values.specs.Numbers.{big_endian};
ghost use Rattle.ncc_values.specs.Version.{count_width_of};
ghost use Rattle.ncc_values.specs.Failures.{Counts};
ghost use Rattle.ncc_schema.specs.Device.{WritesAll};
ghost use Rattle.ncc_schema.specs.Schema.{LegalCount};
ghost use Rattle.ncc_schema.specs.Header.{numrecs_word};

use crate::limits::streaming_mark;
use crate::numbers::put_non_neg;
use crate::schema::Count;
use crate::sink::Sink;
use ncc_values::{Device, Version};

/// numrecs = NON_NEG | STREAMING
pub fn put_numrecs<W: Sink>(sink: &mut W, version: Version, count: Count) -> Result<(), Device>
    requires { LegalCount version count }
    ensures bytes { WritesAll (W.put sink.old) (W.put sink.new) result
        (big_endian (count_width_of version) (numrecs_word version count)) }
    ensures count { Counts (W.failures sink.old) (W.failures sink.new) result }
{
    match count {
        Count::Known(n) => put_non_neg(sink, version, n),
        Count::Streaming => put_non_neg(sink, version, streaming_mark(version)),
    }
}
