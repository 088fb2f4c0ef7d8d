//! Taking a dimension that is whole in a piece, with nothing to mark or to refuse, at once.

ghost use Rattle.std.specs.Prelude.{◌≡◌, ◌+◌, ◌≤◌, ◌<◌, [], length, IfSome, IfNone, IfOk, IfErr};
ghost use Rattle.ncc_header.specs.declared.partial.Named.TheVariants as named;
ghost use Rattle.ncc_header.specs.declared.partial.Next.TheVariants as nexts;
ghost use Rattle.ncc_header.specs.Fields.{dim};
ghost use Rattle.ncc_header.specs.AtFront.{AtFront, NeedsMemory};
ghost use Rattle.ncc_header.specs.Reading.{Went, effort_of};

use crate::partial::Next;
use crate::reading::Reading;
use crate::rules::dim::{add_dim, whole_dim_length};
use crate::rules::name::whole_name;
use ncc_schema::Dim;
use ncc_values::{Name, Version};
use std::alloc::{AllocError, Global};

/// A dimension at the front of a piece, and the bytes after it.
#[derive(Clone, Copy)]
struct Found<'a> {
    name: &'a [u8],
    length: u64,
    after: &'a [u8],
}

/// dim = name dim_length
#[inline]
fn whole_dim<'a>(version: Version, before: &[Dim], piece: &'a [u8]) -> Option<Found<'a>>
    ensures at_front { IfSome result (λ x. AtFront (dim version before.now)
        (record { name = x.name.now; length = x.length }) piece.now x.after.now) }
    ensures less { IfSome result (λ x. length x.after.now < length piece.now) }
{
    let (name, rest) = whole_name(version, piece)?;
    let (length, after) = whole_dim_length(version, before, rest)?;
    Some(Found {
        name,
        length,
        after,
    })
}

/// Takes the dimension that comes next, where the rest of a piece, which is within the limit, begins with all of it and
/// nothing is to mark or to refuse, and tells how many bytes are its. Any other is left as it is, and needs no memory.
pub fn take_dim(
    alloc: Global,
    reading: &mut Reading,
    rest: &[u8],
) -> Result<Option<usize>, AllocError>
    requires next { reading.old.next ≡ nexts.NameLength named.Dim }
    requires none { reading.old.held.items ≡ [] }
    requires within { reading.old.at + length rest.now ≤ reading.old.limit }
    ensures some { IfOk result (λ o. IfSome o (λ n. Went reading.old reading.new rest.now n)) }
    ensures less { IfOk result (λ o. IfSome o (λ n. effort_of reading.new < effort_of reading.old)) }
    ensures none { IfOk result (λ o. IfNone o (reading.new ≡ reading.old)) }
    ensures memory { IfErr result (λ _. 12 ≤ reading.old.at) }
    ensures needs { IfErr result (λ _. NeedsMemory reading.old.next reading.old.partial rest.now) }
{
    let version = reading.partial.lists.parts.version;
    let Some(found) = whole_dim(version, &reading.partial.lists.parts.dims, rest) else {
        return Ok(None);
    };
    let used = rest.len() - found.after.len();
    let name = Name::from_slice(alloc, found.name)?;
    let dim = Dim {
        name,
        length: found.length,
    };
    match add_dim(&mut reading.partial, dim) {
        Ok(next) => {
            reading.next = next;
            reading.at += used as u64;
            Ok(Some(used))
        }
        Err(error) => {
            // What a reading promises holds of any that begins, whatever was built.
            reading.next = Next::Magic;
            Err(error)
        }
    }
}
