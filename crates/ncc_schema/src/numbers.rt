//! Writing the numbers and the padding of a header.

ghost use Rattle.std.specs.Prelude.{◌<◌, ◌^◌, length};
ghost use Rattle.ncc_values.specs.Numbers.{big_endian};
ghost use Rattle.ncc_values.specs.Version.{count_width_of, offset_width_of};
ghost use Rattle.ncc_values.specs.Failures.{Counts};
ghost use Rattle.ncc_schema.specs.Device.{WritesAll};
ghost use Rattle.ncc_schema.specs.Header.{zeros};

use crate::sink::{Sink, write_all};
use ncc_values::{Device, External, Version};

pub fn put_word<W: Sink>(sink: &mut W, n: u32) -> Result<(), Device>
    ensures bytes { WritesAll (W.put sink.old) (W.put sink.new) result (big_endian 4 n) }
    ensures count { Counts (W.failures sink.old) (W.failures sink.new) result }
{
    let mut bytes = [0; 4];
    n.put(&mut bytes);
    write_all(sink, &bytes)
}

fn put_long<W: Sink>(sink: &mut W, n: u64) -> Result<(), Device>
    ensures bytes { WritesAll (W.put sink.old) (W.put sink.new) result (big_endian 8 n) }
    ensures count { Counts (W.failures sink.old) (W.failures sink.new) result }
{
    let mut bytes = [0; 8];
    n.put(&mut bytes);
    write_all(sink, &bytes)
}

/// NON_NEG: a number of items or of records, a length, a dimension's number or a vsize.
pub fn put_non_neg<W: Sink>(sink: &mut W, version: Version, n: u64) -> Result<(), Device>
    requires { n < 256 ^ count_width_of version }
    ensures bytes { WritesAll (W.put sink.old) (W.put sink.new) result (big_endian (count_width_of version) n) }
    ensures count { Counts (W.failures sink.old) (W.failures sink.new) result }
{
    match version {
        Version::V1 | Version::V2 => put_word(sink, n as u32),
        Version::V5 => put_long(sink, n),
    }
}

/// begin
pub fn put_begin<W: Sink>(sink: &mut W, version: Version, n: u64) -> Result<(), Device>
    requires { n < 256 ^ offset_width_of version }
    ensures bytes { WritesAll (W.put sink.old) (W.put sink.new) result (big_endian (offset_width_of version) n) }
    ensures count { Counts (W.failures sink.old) (W.failures sink.new) result }
{
    match version {
        Version::V1 => put_word(sink, n as u32),
        Version::V2 | Version::V5 => put_long(sink, n),
    }
}

/// padding = 0 to 3 bytes
pub fn put_zeros<W: Sink>(sink: &mut W, n: u64) -> Result<(), Device>
    requires { n < 4 }
    ensures bytes { WritesAll (W.put sink.old) (W.put sink.new) result (zeros n) }
    ensures count { Counts (W.failures sink.old) (W.failures sink.new) result }
{
    write_all(sink, &[0; 4][..n as usize])
}
