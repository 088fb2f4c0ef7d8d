//! The rule name = nelems namestring padding.

ghost use Rattle.std.specs.Prelude.{◌≡◌, ◌<◌, length, ◌+◌};
ghost use Rattle.ncc_values.specs.Failures.{Counts};
ghost use Rattle.ncc_schema.specs.Device.{WritesAll};
ghost use Rattle.ncc_schema.specs.Schema.{LegalName};
ghost use Rattle.ncc_schema.specs.Header.{canon_name};
ghost use Rattle.ncc_schema.specs.Names.{capped};

use crate::numbers::{put_non_neg, put_zeros};
use crate::sink::{Sink, write_all};
use ncc_values::{Device, Version, pad};

/// name = nelems namestring padding
pub fn put_name<W: Sink>(sink: &mut W, version: Version, name: &[u8]) -> Result<(), Device>
    requires { LegalName version name.now }
    ensures bytes { WritesAll (W.put sink.old) (W.put sink.new) result (canon_name version name.now) }
    ensures count { Counts (W.failures sink.old) (W.failures sink.new) result }
{
    put_non_neg(sink, version, name.len() as u64)?;
    write_all(sink, name)?;
    put_zeros(sink, pad(name.len() as u64))
}

/// The length, the bytes and the padding of a name.
pub fn name_size(version: Version, name: &[u8]) -> u64
    ensures { result ≡ capped (length (canon_name version name.now)) }
{
    let length = name.len() as u64;
    let width = version.count_width() as u64;
    length.saturating_add(width + pad(length))
}
