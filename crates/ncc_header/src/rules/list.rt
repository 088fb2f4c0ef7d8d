//! What the lists have in common: ABSENT | tag nelems [item ...].

ghost use Rattle.std.specs.Prelude.{◌≡◌, ◌≤◌, Some, ◌<◌, length, IfSome, not, ◌==◌, ◌&&◌};
ghost use Rattle.ncc_header.specs.Fields.{nelems_wrong, tag_wrong, list_nelems_wrong, list_head, nelems};
ghost use Rattle.ncc_header.specs.Steps.{Judges};
ghost use Rattle.ncc_schema.specs.Header.{nc_attribute};
ghost use Rattle.ncc_header.specs.AtFront.{AtFront};

use crate::at_front::{any_count, number_at};
use crate::fault::{FaultKind, Wrong};
use crate::judge::{refuse, refuse_tag};
use ncc_schema::{NC_ATTRIBUTE, limit_of_counts};
use ncc_values::{Version, number};

/// nelems = NON_NEG
pub fn judge_nelems(version: Version, n: u64) -> Result<(), Wrong>
    ensures { Judges (nelems_wrong version n) result }
{
    if n >= limit_of_counts(version) {
        return refuse(FaultKind::NegativeCount);
    }
    Ok(())
}

/// nelems = NON_NEG
#[inline]
pub fn whole_nelems(version: Version, piece: &[u8]) -> Option<(u64, &[u8])>
    ensures at_front { IfSome result (λ r. AtFront (nelems version) r.0 piece.now r.1.now) }
    ensures less { IfSome result (λ r. length r.1.now < length piece.now) }
{
    let (n, after) = any_count(version, piece)?;
    match judge_nelems(version, n) {
        Ok(()) => Some((n, after)),
        Err(_) => None,
    }
}

/// A list's tag, zero or its own: ABSENT | tag nelems [item ...]
pub fn judge_tag(own: u32, tag: u64) -> Result<(), Wrong>
    ensures { Judges (tag_wrong own tag) result }
{
    if tag != 0 && tag != own as u64 {
        return refuse(FaultKind::BadTag);
    }
    Ok(())
}

/// The number of a list's items, after a tag that was zero or its own: tag **nelems** [item ...]
pub fn judge_list_nelems(version: Version, tag: u64, n: u64) -> Result<(), Wrong>
    ensures { Judges (list_nelems_wrong version tag n) result }
{
    judge_nelems(version, n)?;
    if tag == 0 && n != 0 {
        return refuse_tag(FaultKind::BadTag);
    }
    Ok(())
}

/// Whether a tag stands before no items, which is marked.
#[inline]
fn is_tagged_empty(tag: u64, n: u64) -> bool
    ensures { result ≡ (not (tag == 0) && (n == 0)) }
{
    tag != 0 && n == 0
}

/// The head of vatt_list = ABSENT | NC_ATTRIBUTE nelems [attr ...], where it is absent or has items: how many
#[inline]
pub fn whole_attrs_head(version: Version, piece: &[u8]) -> Option<(u64, &[u8])>
    ensures at_front { IfSome result (λ r. AtFront (list_head version nc_attribute) r.0 piece.now r.1.now) }
    ensures less { IfSome result (λ r. length r.1.now ≤ length piece.now) }
{
    let (tag, rest) = number_at(piece, 4)?;
    let (n, after) = any_count(version, rest)?;
    if is_tagged_empty(tag, n) {
        return None;
    }
    let Ok(()) = judge_tag(NC_ATTRIBUTE, tag) else {
        return None;
    };
    match judge_list_nelems(version, tag, n) {
        Ok(()) => Some((n, after)),
        Err(_) => None,
    }
}
