//! The rules var_list = ABSENT | NC_VARIABLE nelems [var ...] and var = name nelems [dimid ...] vatt_list nc_type vsize begin.

ghost use Rattle.std.specs.Prelude.{◌≡◌, ◌≤◌, ◌++◌, Some, IfOk, OnOk, [], ◌∷◌, length, ℕ, ◌<◌, List, IfSome, ◌==◌, ◌&&◌};
ghost use Rattle.ncc_values.specs.declared.version.Version.TheVariants.{V1};
ghost use Rattle.ncc_header.specs.Fields.{dimid_wrong, begin_wrong, name, nc_type, nelems, vsize};
ghost use Rattle.ncc_header.specs.Left.{left_of, come_of, first_at, in_var, from_vars, from_dimids, before_of, begins_of, begins_of_vars, var_of};
ghost use Rattle.ncc_header.specs.Steps.{Judges, Steps};
ghost use Rattle.ncc_values.specs.Version.{count_width_of, offset_width_of};
ghost use Rattle.ncc_schema.specs.Schema.{place_of};
ghost use Rattle.ncc_header.specs.declared.partial.Next.TheVariants as nexts;
ghost use Rattle.ncc_values.specs.Numbers.{number_of};
ghost use Rattle.ncc_header.specs.AtFront.{AtFront, StartsWith, StartsWithBegin};

use crate::at_front::{any_count, number_at};
use crate::fault::{FaultKind, StepError, Wrong};
use crate::items::push_item;
use crate::judge::refuse;
use crate::partial::{Lists, Named, Next, Owner, Partial, Vars};
use crate::rules::attr::judge_nc_type;
use crate::rules::list::{judge_list_nelems, judge_nelems, judge_tag};
use ncc_schema::{Dim, NC_VARIABLE, Var, VarPlace, limit_of_offsets};
use ncc_values::{Name, Seq, Version, XType, number};
use std::alloc::{AllocError, Global};
use std::mem;

/// dimid = NON_NEG, after the variable's numbers before it
pub fn judge_dimid(dims: &[Dim], before: &[usize], n: u64) -> Result<usize, Wrong>
    ensures judged { Judges (dimid_wrong dims.now before.now n) result }
    ensures value { IfOk result (λ id. id ≡ n) }
{
    if n >= dims.len() as u64 {
        return refuse(FaultKind::BadDimId);
    }
    let id = n as usize;
    if dims[id].length == 0 && !before.is_empty() {
        return refuse(FaultKind::RecordDimNotFirst);
    }
    Ok(id)
}

/// begin = OFFSET
pub fn judge_begin(version: Version, n: u64) -> Result<(), Wrong>
    ensures { Judges (begin_wrong version n) result }
{
    if n >= limit_of_offsets(version) {
        return refuse(FaultKind::NegativeOffset);
    }
    Ok(())
}

/// The tag: var_list = ABSENT | **NC_VARIABLE** nelems [var ...]
pub fn after_vars_tag(partial: &Partial, at: u64, front: &[u8]) -> Result<Next, StepError>
    requires { length front.now ≡ 4 }
    ensures { Steps nexts.VarsTag partial.now at front.now result partial.now }
{
    let tag = number(front);
    judge_tag(NC_VARIABLE, tag)?;
    Ok(Next::VarsCount(tag))
}

/// The variable that begins, or where none is left the end of the header.
pub fn next_var(partial: &mut Partial) -> Next
    ensures left { left_of result partial.new
        ≡ from_vars partial.old.lists.parts (before_of partial.old.lists.vars) partial.old.lists.vars.left }
    ensures begins { begins_of result partial.new.lists.vars ≡ begins_of_vars partial.old.lists.vars }
    ensures fresh { come_of result partial.new ≡ [] }
    ensures at { first_at result ≤ 12 }
{
    let left = partial.lists.vars.left;
    if left == 0 {
        return Next::Whole;
    }
    partial.lists.vars.left = left - 1;
    Next::NameLength(Named::Var)
}

/// The number of items: var_list = ABSENT | NC_VARIABLE **nelems** [var ...]
pub fn after_vars_count(
    alloc: Global,
    partial: &mut Partial,
    tag: u64,
    at: u64,
    front: &[u8],
) -> Result<Next, StepError>
    requires { length front.now ≡ count_width_of partial.old.lists.parts.version }
    ensures { Steps (nexts.VarsCount tag) partial.old at front.now result partial.new }
{
    let left = number(front);
    judge_list_nelems(partial.lists.parts.version, tag, left)?;
    partial.lists.vars = Vars {
        vars: Vec::new(alloc),
        places: Vec::new(alloc),
        left,
    };
    Ok(next_var(partial))
}

/// The dimension's number that comes next, or where none of so many is left the variable's attributes.
fn next_dimid(partial: &Partial, left: u64) -> Next
    ensures left { left_of result partial.now ≡ in_var partial.now.lists.parts partial.now.lists.vars
        (from_dimids partial.now.lists.parts partial.now.lists.var.name partial.now.lists.var.dims.items left) }
    ensures begins { begins_of result partial.now.lists.vars ≡ begins_of_vars partial.now.lists.vars }
    ensures fresh { come_of result partial.now ≡ [] }
    ensures at { first_at result ≤ 12 }
{
    if left == 0 {
        return Next::AttrsTag(Owner::Variable);
    }
    Next::DimId(left - 1)
}

/// The rank: var = name **nelems** [dimid ...] vatt_list nc_type vsize begin
pub fn after_dimids_count(
    alloc: Global,
    partial: &mut Partial,
    at: u64,
    front: &[u8],
) -> Result<Next, StepError>
    requires { length front.now ≡ count_width_of partial.old.lists.parts.version }
    ensures { Steps nexts.DimIdsCount partial.old at front.now result partial.new }
{
    let n = number(front);
    judge_nelems(partial.lists.parts.version, n)?;
    partial.lists.var.dims = Vec::new(alloc);
    Ok(next_dimid(partial, n))
}

/// A dimension's number: var = name nelems **[dimid ...]** vatt_list nc_type vsize begin
pub fn after_dimid(
    partial: &mut Partial,
    left: u64,
    at: u64,
    front: &[u8],
) -> Result<Next, StepError>
    requires { length front.now ≡ count_width_of partial.old.lists.parts.version }
    ensures { Steps (nexts.DimId left) partial.old at front.now result partial.new }
{
    let id = judge_dimid(
        &partial.lists.parts.dims,
        &partial.lists.var.dims,
        number(front),
    )?;
    push_item(&mut partial.lists.var.dims, id, left)?;
    Ok(next_dimid(partial, left))
}

/// The type: var = name nelems [dimid ...] vatt_list **nc_type** vsize begin
pub fn after_var_type(partial: &Partial, at: u64, front: &[u8]) -> Result<Next, StepError>
    requires { length front.now ≡ 4 }
    ensures { Steps nexts.VarType partial.now at front.now result partial.now }
{
    let xtype = judge_nc_type(partial.lists.parts.version, number(front))?;
    Ok(Next::Vsize(xtype))
}

/// The size: var = name nelems [dimid ...] vatt_list nc_type **vsize** begin
pub fn after_vsize(
    partial: &Partial,
    xtype: XType,
    at: u64,
    front: &[u8],
) -> Result<Next, StepError>
    requires { length front.now ≡ count_width_of partial.now.lists.parts.version }
    ensures { Steps (nexts.Vsize xtype) partial.now at front.now result partial.now }
{
    Ok(Next::VarBegin(xtype, number(front)))
}

/// The variable that has begun, of this type.
pub fn end_var(alloc: Global, lists: &mut Lists, xtype: XType) -> Var
    ensures var { result ≡ var_of lists.old xtype }
    ensures parts { lists.new.parts ≡ lists.old.parts }
    ensures vars { lists.new.vars ≡ lists.old.vars }
{
    let dims = mem::replace(&mut lists.var.dims, Vec::new(alloc));
    let attrs = mem::replace(&mut lists.attrs, Vec::new(alloc));
    Var {
        name: mem::replace(&mut lists.var.name, Name::new(alloc)),
        dims: Seq::from_vec(dims),
        attrs: Seq::from_vec(attrs),
        xtype,
    }
}

/// Adds a variable and its place, or where there is no memory neither.
pub fn add_var(vars: &mut Vars, var: Var, place: VarPlace) -> Result<(), AllocError>
    ensures before { OnOk result (before_of vars.new ≡ before_of vars.old ++ (var, place_of place) ∷ []) }
    ensures begins { OnOk result (begins_of_vars vars.new ≡ begins_of_vars vars.old ++ place.begin_at ∷ []) }
    ensures left { vars.new.left ≡ vars.old.left }
{
    push_item(&mut vars.places, place, vars.left)?;
    if let Err(error) = push_item(&mut vars.vars, var, vars.left) {
        let _place = vars.places.pop();
        return Err(error);
    }
    Ok(())
}

/// The offset: var = name nelems [dimid ...] vatt_list nc_type vsize **begin**
pub fn after_begin(
    alloc: Global,
    partial: &mut Partial,
    xtype: XType,
    vsize: u64,
    at: u64,
    front: &[u8],
) -> Result<Next, StepError>
    requires { length front.now ≡ offset_width_of partial.old.lists.parts.version }
    ensures { Steps (nexts.VarBegin xtype vsize) partial.old at front.now result partial.new }
{
    let begin = number(front);
    judge_begin(partial.lists.parts.version, begin)?;
    let var = end_var(alloc, &mut partial.lists, xtype);
    let place = VarPlace {
        vsize,
        begin,
        begin_at: at,
    };
    add_var(&mut partial.lists.vars, var, place)?;
    Ok(next_var(partial))
}

/// vsize = NON_NEG, whatever number it is
#[inline]
pub fn whole_vsize(version: Version, piece: &[u8]) -> Option<(u64, &[u8])>
    ensures at_front { IfSome result (λ r. AtFront (vsize version) r.0 piece.now r.1.now) }
    ensures less { IfSome result (λ r. length r.1.now ≤ length piece.now) }
{
    let (n, after) = any_count(version, piece)?;
    Some((n, after))
}

/// An offset, whatever number it is, and the bytes after it.
#[inline]
fn any_offset(version: Version, piece: &[u8]) -> Option<(u64, &[u8])>
    ensures { IfSome result (λ r. (front : List ℕ) × StartsWith piece.now front (offset_width_of version) r.1.now
        × (r.0 ≡ number_of front)) }
{
    match version {
        Version::V1 => number_at(piece, 4),
        Version::V2 | Version::V5 => number_at(piece, 8),
    }
}

/// begin = OFFSET
#[inline]
pub fn whole_begin(version: Version, piece: &[u8]) -> Option<(u64, &[u8])>
    ensures starts { IfSome result (λ r. StartsWithBegin version r.0 piece.now r.1.now) }
    ensures less { IfSome result (λ r. length r.1.now ≤ length piece.now) }
{
    let (n, after) = any_offset(version, piece)?;
    match judge_begin(version, n) {
        Ok(()) => Some((n, after)),
        Err(_) => None,
    }
}
