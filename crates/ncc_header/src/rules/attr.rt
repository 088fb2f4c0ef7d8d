//! The rules att_list = ABSENT | NC_ATTRIBUTE nelems [attr ...] and attr = name nc_type nelems [values ...] padding.

ghost use Rattle.std.specs.Prelude.{◌≡◌, ◌≤◌, ◌++◌, Some, IfOk, OnOk, ◌*◌, ◌%◌, ◌<◌, ◌^◌, ◌∷◌, [], length, OnErr, IfSome, ◌==◌};
ghost use Rattle.ncc_values.specs.XType.{type_of_code, size_of as bytes_each};
ghost use Rattle.ncc_header.specs.Fields.{nc_type_wrong, name, nc_type, nelems};
ghost use Rattle.ncc_header.specs.Left.{left_of, come_of, first_at, from_attrs, begins_of, begins_of_owner, idle_of};
ghost use Rattle.ncc_header.specs.Steps.{Judges, Steps};
ghost use Rattle.ncc_values.specs.Values.{type_of, bytes_of, with_bytes};
ghost use Rattle.ncc_values.specs.Version.{count_width_of};
ghost use Rattle.ncc_header.specs.declared.partial.Next.TheVariants as nexts;
ghost use Rattle.ncc_header.specs.AtFront.{AtFront};

use crate::at_front::number_at;
use crate::fault::{FaultKind, StepError, Wrong};
use crate::items::push_item;
use crate::judge::refuse;
use crate::partial::{Body, Named, Next, Owner, Partial};
use crate::rules::list::{judge_list_nelems, judge_nelems, judge_tag};
use ncc_schema::{Attr, NC_ATTRIBUTE};
use ncc_values::{Name, Values, Version, XType, number};
use std::alloc::{AllocError, Global};
use std::mem;

/// nc_type = NC_BYTE | NC_CHAR ..., by the version
pub fn judge_nc_type(version: Version, n: u64) -> Result<XType, Wrong>
    ensures judged { Judges (nc_type_wrong version n) result }
    ensures value { IfOk result (λ t. type_of_code version n ≡ Some t) }
{
    let Ok(code) = u32::try_from(n) else {
        return refuse(FaultKind::BadType);
    };
    match XType::from_code(code, version) {
        Some(xtype) => Ok(xtype),
        None => refuse(FaultKind::BadType),
    }
}

/// The tag: att_list = ABSENT | **NC_ATTRIBUTE** nelems [attr ...]
pub fn after_attrs_tag(
    partial: &Partial,
    owner: Owner,
    at: u64,
    front: &[u8],
) -> Result<Next, StepError>
    requires { length front.now ≡ 4 }
    ensures { Steps (nexts.AttrsTag owner) partial.now at front.now result partial.now }
{
    let tag = number(front);
    judge_tag(NC_ATTRIBUTE, tag)?;
    Ok(Next::AttrsCount(owner, tag))
}

/// The attribute that begins, or where none of so many is left what follows the list.
pub fn next_attr(alloc: Global, partial: &mut Partial, owner: Owner, left: u64) -> Next
    ensures left { left_of result partial.new ≡ from_attrs owner partial.old.lists partial.old.lists.attrs.items left }
    ensures begins { begins_of result partial.new.lists.vars ≡ begins_of_owner owner partial.old.lists.vars }
    ensures fresh { come_of result partial.new ≡ [] }
    ensures at { first_at result ≤ 12 }
    ensures idle { idle_of result ≡ 0 }
{
    if left == 0 {
        return match owner {
            Owner::File => {
                partial.lists.parts.gatts = mem::replace(&mut partial.lists.attrs, Vec::new(alloc));
                Next::VarsTag
            }
            Owner::Variable => Next::VarType,
        };
    }
    partial.lists.attrs_left = left - 1;
    Next::NameLength(Named::Attr(owner))
}

/// The number of items: att_list = ABSENT | NC_ATTRIBUTE **nelems** [attr ...]
pub fn after_attrs_count(
    alloc: Global,
    partial: &mut Partial,
    owner: Owner,
    tag: u64,
    at: u64,
    front: &[u8],
) -> Result<Next, StepError>
    requires { length front.now ≡ count_width_of partial.old.lists.parts.version }
    ensures { Steps (nexts.AttrsCount owner tag) partial.old at front.now result partial.new }
{
    let n = number(front);
    judge_list_nelems(partial.lists.parts.version, tag, n)?;
    partial.lists.attrs = Vec::new(alloc);
    Ok(next_attr(alloc, partial, owner, n))
}

/// The type: attr = name **nc_type** nelems [values ...] padding
pub fn after_attr_type(
    partial: &Partial,
    owner: Owner,
    at: u64,
    front: &[u8],
) -> Result<Next, StepError>
    requires { length front.now ≡ 4 }
    ensures { Steps (nexts.AttrType owner) partial.now at front.now result partial.now }
{
    let xtype = judge_nc_type(partial.lists.parts.version, number(front))?;
    Ok(Next::AttrCount(owner, xtype))
}

/// No values of this type.
pub fn no_body(alloc: Global, xtype: XType) -> Body
    ensures xtype { type_of result.values ≡ xtype }
    ensures none { bytes_of result.values ≡ [] }
{
    Body {
        values: Values::new(alloc, xtype),
    }
}

/// The number of values: attr = name nc_type **nelems** [values ...] padding
pub fn after_attr_count(
    alloc: Global,
    partial: &mut Partial,
    owner: Owner,
    xtype: XType,
    at: u64,
    front: &[u8],
) -> Result<Next, StepError>
    requires { length front.now ≡ count_width_of partial.old.lists.parts.version }
    ensures { Steps (nexts.AttrCount owner xtype) partial.old at front.now result partial.new }
{
    let n = number(front);
    judge_nelems(partial.lists.parts.version, n)?;
    partial.body = no_body(alloc, xtype);
    Ok(Next::AttrValues(owner, n))
}

/// Adds the values that the bytes spell.
pub fn add_values(body: &mut Body, bytes: &[u8]) -> Result<(), AllocError>
    requires { length bytes.now % bytes_each (type_of body.old.values) ≡ 0 }
    ensures ok { OnOk result (body.new.values ≡ with_bytes body.old.values bytes.now) }
    ensures xtype { OnOk result (type_of body.new.values ≡ type_of body.old.values) }
    ensures bytes { OnOk result (bytes_of body.new.values ≡ bytes_of body.old.values ++ bytes.now) }
    ensures err { OnErr result (body.new ≡ body.old) }
{
    body.values.push_from(bytes)?;
    Ok(())
}

/// The last of the values: attr = name nc_type nelems **[values ...]** padding
pub fn after_attr_values(
    partial: &mut Partial,
    owner: Owner,
    n: u64,
    at: u64,
    front: &[u8],
) -> Result<Next, StepError>
    requires whole { length (bytes_of partial.old.body.values ++ front.now)
        ≡ n * bytes_each (type_of partial.old.body.values) }
    requires small { length (bytes_of partial.old.body.values ++ front.now) < 2 ^ 64 }
    ensures steps { Steps (nexts.AttrValues owner n) partial.old at (bytes_of partial.old.body.values ++ front.now)
        result partial.new }
    ensures idle { IfOk result (λ after. idle_of after ≡ 1) }
{
    add_values(&mut partial.body, front)?;
    let size = n * partial.body.values.xtype().size() as u64;
    Ok(Next::AttrPadding(owner, size))
}

/// Adds the attribute that has begun, now whole, and tells which field comes then.
fn add_attr(
    alloc: Global,
    partial: &mut Partial,
    owner: Owner,
    attr: Attr,
) -> Result<Next, AllocError>
    ensures left { IfOk result (λ next. left_of next partial.new ≡ from_attrs owner partial.old.lists
        (partial.old.lists.attrs.items ++ attr ∷ []) partial.old.lists.attrs_left) }
    ensures begins { IfOk result (λ next. begins_of next partial.new.lists.vars
        ≡ begins_of_owner owner partial.old.lists.vars) }
    ensures fresh { IfOk result (λ next. come_of next partial.new ≡ []) }
    ensures at { IfOk result (λ next. first_at next ≤ 12) }
    ensures idle { IfOk result (λ next. idle_of next ≡ 0) }
{
    let left = partial.lists.attrs_left;
    push_item(&mut partial.lists.attrs, attr, left)?;
    Ok(next_attr(alloc, partial, owner, left))
}

/// The padding: attr = name nc_type nelems [values ...] **padding**
pub fn after_attr_padding(
    alloc: Global,
    partial: &mut Partial,
    owner: Owner,
    size: u64,
    at: u64,
    front: &[u8],
) -> Result<Next, StepError>
    ensures steps { Steps (nexts.AttrPadding owner size) partial.old at front.now result partial.new }
    ensures idle { IfOk result (λ after. idle_of after ≡ 0) }
{
    let name = mem::replace(&mut partial.name, Name::new(alloc));
    let body = mem::replace(&mut partial.body, no_body(alloc, XType::Byte));
    let attr = Attr {
        name,
        values: body.values,
    };
    Ok(add_attr(alloc, partial, owner, attr)?)
}

/// nc_type = NC_BYTE | NC_CHAR ..., by the version
#[inline]
pub fn whole_nc_type(version: Version, piece: &[u8]) -> Option<(XType, &[u8])>
    ensures at_front { IfSome result (λ r. AtFront (nc_type version) r.0 piece.now r.1.now) }
    ensures less { IfSome result (λ r. length r.1.now ≤ length piece.now) }
{
    let (code, after) = number_at(piece, 4)?;
    match judge_nc_type(version, code) {
        Ok(xtype) => Some((xtype, after)),
        Err(_) => None,
    }
}
