//! The rules dim_list = ABSENT | NC_DIMENSION nelems [dim ...] and dim = name dim_length.

ghost use Rattle.std.specs.Prelude.{◌≡◌, ◌≤◌, nat_lt, Some, IfOk, [], length, ◌<◌, IfSome, ◌==◌, ◌&&◌};
ghost use Rattle.ncc_schema.specs.Schema.{record_dims};
ghost use Rattle.ncc_header.specs.Fields.{dim_length_wrong, dim_length, name, nelems};
ghost use Rattle.ncc_header.specs.Left.{left_of, come_of, first_at, from_dims, after_dim, begins_of};
ghost use Rattle.ncc_header.specs.Steps.{Judges, Steps};
ghost use Rattle.ncc_values.specs.Version.{count_width_of};
ghost use Rattle.ncc_header.specs.declared.partial.Next.TheVariants as nexts;
ghost use Rattle.ncc_header.specs.AtFront.{AtFront};

use crate::at_front::any_count;
use crate::fault::{FaultKind, StepError, Wrong};
use crate::items::push_item;
use crate::judge::refuse;
use crate::partial::{Named, Next, Owner, Partial};
use crate::rules::list::{judge_list_nelems, judge_tag};
use ncc_schema::{Dim, NC_DIMENSION, limit_of_lengths};
use ncc_values::{Name, Version, number};
use std::alloc::{AllocError, Global};
use std::mem;

/// Is one of the dimensions the record dimension?
fn has_record_dim(dims: &[Dim]) -> bool
    ensures { result ≡ nat_lt 0 (record_dims dims.now) }
{
    for dim in dims {
        if dim.length == 0 {
            return true;
        }
    }
    false
}

/// dim_length = NON_NEG; only in CDF-5 is there a sign.
pub fn judge_dim_length(version: Version, before: &[Dim], n: u64) -> Result<(), Wrong>
    ensures { Judges (dim_length_wrong version before.now n) result }
{
    if n >= limit_of_lengths(version) {
        return refuse(FaultKind::NegativeCount);
    }
    if n == 0 && has_record_dim(before) {
        return refuse(FaultKind::TwoRecordDims);
    }
    Ok(())
}

/// The tag: dim_list = ABSENT | **NC_DIMENSION** nelems [dim ...]
pub fn after_dims_tag(partial: &Partial, at: u64, front: &[u8]) -> Result<Next, StepError>
    requires { length front.now ≡ 4 }
    ensures { Steps nexts.DimsTag partial.now at front.now result partial.now }
{
    let tag = number(front);
    judge_tag(NC_DIMENSION, tag)?;
    Ok(Next::DimsCount(tag))
}

/// The dimension that begins, or where none of so many is left the attributes of the file.
fn next_dim(partial: &mut Partial, left: u64) -> Next
    ensures left { left_of result partial.new ≡ from_dims partial.old.lists.parts left }
    ensures begins { begins_of result partial.new.lists.vars ≡ [] }
    ensures fresh { come_of result partial.new ≡ [] }
    ensures at { first_at result ≤ 12 }
{
    if left == 0 {
        return Next::AttrsTag(Owner::File);
    }
    partial.lists.dims_left = left - 1;
    Next::NameLength(Named::Dim)
}

/// The number of items: dim_list = ABSENT | NC_DIMENSION **nelems** [dim ...]
pub fn after_dims_count(
    alloc: Global,
    partial: &mut Partial,
    tag: u64,
    at: u64,
    front: &[u8],
) -> Result<Next, StepError>
    requires { length front.now ≡ count_width_of partial.old.lists.parts.version }
    ensures { Steps (nexts.DimsCount tag) partial.old at front.now result partial.new }
{
    let n = number(front);
    judge_list_nelems(partial.lists.parts.version, tag, n)?;
    partial.lists.parts.dims = Vec::new(alloc);
    Ok(next_dim(partial, n))
}

/// Adds the dimension that has begun, now whole, and tells which field comes then.
pub fn add_dim(partial: &mut Partial, dim: Dim) -> Result<Next, AllocError>
    ensures left { IfOk result (λ next. left_of next partial.new
        ≡ after_dim partial.old.lists.parts partial.old.lists.dims_left dim) }
    ensures begins { IfOk result (λ next. begins_of next partial.new.lists.vars ≡ []) }
    ensures fresh { IfOk result (λ next. come_of next partial.new ≡ []) }
    ensures at { IfOk result (λ next. first_at next ≤ 12) }
{
    let left = partial.lists.dims_left;
    push_item(&mut partial.lists.parts.dims, dim, left)?;
    Ok(next_dim(partial, left))
}

/// The length: dim = name **dim_length**
pub fn after_dim_length(
    alloc: Global,
    partial: &mut Partial,
    at: u64,
    front: &[u8],
) -> Result<Next, StepError>
    requires { length front.now ≡ count_width_of partial.old.lists.parts.version }
    ensures { Steps nexts.DimLength partial.old at front.now result partial.new }
{
    let length = number(front);
    judge_dim_length(
        partial.lists.parts.version,
        &partial.lists.parts.dims,
        length,
    )?;
    let name = mem::replace(&mut partial.name, Name::new(alloc));
    Ok(add_dim(partial, Dim { name, length })?)
}

/// dim_length = NON_NEG, after the dimensions before it
#[inline]
pub fn whole_dim_length<'a>(
    version: Version,
    before: &[Dim],
    piece: &'a [u8],
) -> Option<(u64, &'a [u8])>
    ensures at_front { IfSome result (λ r. AtFront (dim_length version before.now) r.0 piece.now r.1.now) }
    ensures less { IfSome result (λ r. length r.1.now ≤ length piece.now) }
{
    let (n, after) = any_count(version, piece)?;
    match judge_dim_length(version, before, n) {
        Ok(()) => Some((n, after)),
        Err(_) => None,
    }
}
