//! What the lists have in common: ABSENT | tag nelems [item ...].

ghost use Rattle.std.specs.Prelude.{◌≡◌, ◌<◌, ◌==◌, if◌then◌else◌, ◌+◌};
ghost use Rattle.ncc_values.specs.Failures.{Counts};
ghost use Rattle.ncc_schema.specs.Device.{WritesAll};
ghost use Rattle.ncc_schema.specs.Schema.{count_limit};
ghost use Rattle.ncc_schema.specs.Header.{canon_head};
ghost use Rattle.ncc_schema.specs.Names.{list_size};

use crate::numbers::{put_non_neg, put_word};
use crate::sink::Sink;
use ncc_values::{Device, Version};

/// The tag before a number of items: zero where there are none.
fn tag_before(number: usize, tag: u32) -> u32
    ensures { result ≡ if number == 0 then 0 else tag }
{
    if number == 0 { 0 } else { tag }
}

/// ABSENT | tag nelems
pub fn put_head<W: Sink>(
    sink: &mut W,
    version: Version,
    tag: u32,
    number: usize,
) -> Result<(), Device>
    requires { number < count_limit version }
    ensures bytes { WritesAll (W.put sink.old) (W.put sink.new) result (canon_head version tag number) }
    ensures count { Counts (W.failures sink.old) (W.failures sink.new) result }
{
    put_word(sink, tag_before(number, tag))?;
    put_non_neg(sink, version, number as u64)
}

/// The tag of a list and the number of its items.
pub fn list_size(version: Version) -> u64
    ensures { result ≡ list_size version }
{
    4 + version.count_width() as u64
}
