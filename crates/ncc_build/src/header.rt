//! The header of a schema that was built.

ghost use Rattle.std.specs.Prelude.{◌≡◌, IfOk};
ghost use Rattle.ncc_build.specs.Builds.{schema_of};
ghost use Rattle.ncc_build.specs.File.{header_of};

use crate::built::Built;
use crate::laws::built_is_writable;
use ncc_schema::{WriteSink, encode};
use std::alloc::{AllocError, Global};

/// The bytes of its canonical header, with its standard placement.
pub fn header_bytes(alloc: Global, built: &Built) -> Result<Vec<u8>, AllocError>
    ensures { IfOk result (λ bytes. bytes.items ≡ header_of (schema_of built.now)) }
{
    built_is_writable(built);
    let mut sink = WriteSink::new(Vec::new(alloc));
    match encode(built.schema(), built.places(), &mut sink) {
        Ok(()) => Ok(sink.into_inner()),
        Err(_) => Err(AllocError),
    }
}
