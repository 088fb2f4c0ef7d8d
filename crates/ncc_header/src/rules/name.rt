//! The rule name = nelems namestring padding.

ghost use Rattle.std.specs.Prelude.{◌≡◌, ◌++◌, length, IfOk, ◌<◌, IfSome};
ghost use Rattle.ncc_values.specs.Version.{count_width_of};
ghost use Rattle.ncc_header.specs.declared.partial.Next.TheVariants as nexts;
ghost use Rattle.ncc_header.specs.Left.{idle_of};
ghost use Rattle.ncc_header.specs.Steps.{Steps};
ghost use Rattle.ncc_header.specs.Fields.{name, nelems};
ghost use Rattle.ncc_header.specs.AtFront.{AtFront};

use crate::at_front::with_padding;
use crate::fault::StepError;
use crate::partial::{Named, Next, Partial};
use crate::rules::list::{judge_nelems, whole_nelems};
use ncc_schema::Dim;
use ncc_values::{Name, Version, number};
use std::alloc::Global;
use std::mem;

/// The number of bytes: name = **nelems** namestring padding
pub fn after_name_length(
    partial: &mut Partial,
    named: Named,
    at: u64,
    front: &[u8],
) -> Result<Next, StepError>
    requires { length front.now ≡ count_width_of partial.old.lists.parts.version }
    ensures { Steps (nexts.NameLength named) partial.old at front.now result partial.new }
{
    let n = number(front);
    judge_nelems(partial.lists.parts.version, n)?;
    partial.name.clear();
    Ok(Next::NameText(named, n))
}

/// The last bytes of the text: name = nelems **namestring** padding
pub fn after_name_text(
    partial: &mut Partial,
    named: Named,
    n: u64,
    at: u64,
    front: &[u8],
) -> Result<Next, StepError>
    requires { length (partial.old.name ++ front.now) ≡ n }
    ensures steps { Steps (nexts.NameText named n) partial.old at (partial.old.name ++ front.now) result partial.new }
    ensures idle { IfOk result (λ after. idle_of after ≡ 1) }
{
    partial.name.extend_from_slice(front)?;
    Ok(Next::NamePadding(named))
}

/// The padding: name = nelems namestring **padding**
pub fn after_name_padding(
    alloc: Global,
    partial: &mut Partial,
    named: Named,
    at: u64,
    front: &[u8],
) -> Result<Next, StepError>
    ensures steps { Steps (nexts.NamePadding named) partial.old at front.now result partial.new }
    ensures idle { IfOk result (λ after. idle_of after ≡ 0) }
{
    Ok(match named {
        Named::Dim => Next::DimLength,
        Named::Attr(owner) => Next::AttrType(owner),
        Named::Var => {
            partial.lists.var.name = mem::replace(&mut partial.name, Name::new(alloc));
            Next::DimIdsCount
        }
    })
}

/// name = nelems namestring padding
#[inline]
pub fn whole_name(version: Version, piece: &[u8]) -> Option<(&[u8], &[u8])>
    ensures at_front { IfSome result (λ r. AtFront (name version) r.0.now piece.now r.1.now) }
    ensures less { IfSome result (λ r. length r.1.now < length piece.now) }
{
    let (n, rest) = whole_nelems(version, piece)?;
    let (text, after) = with_padding(rest, n)?;
    Some((text, after))
}
