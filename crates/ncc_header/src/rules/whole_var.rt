//! Taking what stands before and after a variable's attributes, where it is whole in a piece with nothing to mark or
//! to refuse, at once.

ghost use Rattle.std.specs.Prelude.{◌≡◌, ◌+◌, ◌≤◌, ◌<◌, ℕ, List, [], length, IfSome, IfNone, IfOk, IfErr};
ghost use Rattle.ncc_values.specs.Version.{offset_width_of};
ghost use Rattle.ncc_schema.specs.declared.schema.Attr.{Attr as TheAttr};
ghost use Rattle.ncc_header.specs.declared.partial.Named.TheVariants as named;
ghost use Rattle.ncc_header.specs.declared.partial.Next.TheVariants as nexts;
ghost use Rattle.ncc_header.specs.Fields.{dimids};
ghost use Rattle.ncc_header.specs.Left.{from_type};
ghost use Rattle.ncc_header.specs.AtFront.{AtFront, AtFrontWithBegin, HasFirstId, HasFrontOfVar, NeedsMemory, placed, var_head};
ghost use Rattle.ncc_header.specs.Reading.{Went, effort_of};

use crate::at_front::any_count;
use crate::items::push_item;
use crate::partial::{Begun, Next, Owner};
use crate::reading::Reading;
use crate::rules::attr::{next_attr, whole_nc_type};
use crate::rules::list::{whole_attrs_head, whole_nelems};
use crate::rules::name::whole_name;
use crate::rules::var::{add_var, end_var, judge_dimid, next_var, whole_begin, whole_vsize};
use ncc_schema::{Dim, VarPlace};
use ncc_values::{Name, Version, XType};
use std::alloc::{AllocError, Global};

/// The numbers of dimensions at the front of a piece, and the bytes after them.
#[derive(Drop)]
struct Ids<'a> {
    ids: Vec<usize>,
    after: &'a [u8],
}

/// nelems [dimid ...]
#[inline]
fn whole_ids<'a>(
    alloc: Global,
    version: Version,
    dims: &[Dim],
    piece: &'a [u8],
) -> Result<Option<Ids<'a>>, AllocError>
    ensures at_front { IfOk result
        (λ o. IfSome o (λ x. AtFront (dimids version dims.now) x.ids.items piece.now x.after.now)) }
    ensures less { IfOk result (λ o. IfSome o (λ x. length x.after.now ≤ length piece.now)) }
    ensures needs { IfErr result (λ _. HasFirstId version dims.now piece.now) }
{
    let Some((rank, start)) = whole_nelems(version, piece) else {
        return Ok(None);
    };
    let mut ids = Vec::new(alloc);
    let mut rest = start;
    for i in 0..rank {
        let Some((n, after)) = any_count(version, rest) else {
            return Ok(None);
        };
        let Ok(id) = judge_dimid(dims, &ids, n) else {
            return Ok(None);
        };
        push_item(&mut ids, id, rank - 1 - i)?;
        rest = after;
    }
    Ok(Some(Ids { ids, after: rest }))
}

/// A variable up to its attributes at the front of a piece: its name, the numbers of its dimensions and how many
/// attributes it has, and the bytes after them.
#[derive(Drop)]
struct Head<'a> {
    text: &'a [u8],
    ids: Vec<usize>,
    attrs: u64,
    after: &'a [u8],
}

/// name nelems [dimid ...] tag nelems: the front of var
#[inline]
fn whole_head<'a>(
    alloc: Global,
    version: Version,
    dims: &[Dim],
    piece: &'a [u8],
) -> Result<Option<Head<'a>>, AllocError>
    ensures at_front { IfOk result (λ o. IfSome o (λ x. AtFront (var_head version dims.now)
        (x.text.now, x.ids.items, x.attrs) piece.now x.after.now)) }
    ensures less { IfOk result (λ o. IfSome o (λ x. length x.after.now < length piece.now)) }
    ensures needs { IfErr result (λ _. HasFrontOfVar version dims.now piece.now) }
{
    let Some((text, rest)) = whole_name(version, piece) else {
        return Ok(None);
    };
    let Some(found) = whole_ids(alloc, version, dims, rest)? else {
        return Ok(None);
    };
    let Some((attrs, after)) = whole_attrs_head(version, found.after) else {
        return Ok(None);
    };
    Ok(Some(Head {
        text,
        ids: found.ids,
        attrs,
        after,
    }))
}

/// What follows a variable's attributes at the front of a piece, and the bytes after it.
#[derive(Clone, Copy)]
struct Tail<'a> {
    xtype: XType,
    vsize: u64,
    begin: u64,
    after: &'a [u8],
}

/// nc_type vsize begin: the end of var
#[inline]
fn whole_tail(version: Version, piece: &[u8]) -> Option<Tail<'_>>
    ensures at_front { IfSome result (λ x. (name ids : List ℕ) (notes : List TheAttr)
        → AtFrontWithBegin (from_type version name ids notes) (placed name ids notes x.xtype x.vsize x.begin)
        piece.now x.after.now (offset_width_of version)) }
    ensures less { IfSome result (λ x. length x.after.now < length piece.now) }
{
    let (xtype, rest) = whole_nc_type(version, piece)?;
    let (vsize, rest) = whole_vsize(version, rest)?;
    let (begin, after) = whole_begin(version, rest)?;
    Some(Tail {
        xtype,
        vsize,
        begin,
        after,
    })
}

/// Takes the front of the variable that comes next, up to its attributes, where the rest of a piece, which is within the
/// limit, begins with all of it and nothing is to mark or to refuse, and tells how many bytes are its. Any other is left
/// as it is, and needs memory only for the numbers of its dimensions.
pub fn take_var(
    alloc: Global,
    reading: &mut Reading,
    rest: &[u8],
) -> Result<Option<usize>, AllocError>
    requires next { reading.old.next ≡ nexts.NameLength named.Var }
    requires none { reading.old.held.items ≡ [] }
    requires within { reading.old.at + length rest.now ≤ reading.old.limit }
    ensures some { IfOk result (λ o. IfSome o (λ n. Went reading.old reading.new rest.now n)) }
    ensures less { IfOk result (λ o. IfSome o (λ n. effort_of reading.new < effort_of reading.old)) }
    ensures none { IfOk result (λ o. IfNone o (reading.new ≡ reading.old)) }
    ensures memory { IfErr result (λ _. 12 ≤ reading.old.at) }
    ensures needs { IfErr result (λ _. NeedsMemory reading.old.next reading.old.partial rest.now) }
{
    let version = reading.partial.lists.parts.version;
    let Some(head) = whole_head(alloc, version, &reading.partial.lists.parts.dims, rest)? else {
        return Ok(None);
    };
    let used = rest.len() - head.after.len();
    let name = Name::from_slice(alloc, head.text)?;
    reading.partial.lists.var = Begun {
        name,
        dims: head.ids,
    };
    reading.partial.lists.attrs = Vec::new(alloc);
    reading.next = next_attr(alloc, &mut reading.partial, Owner::Variable, head.attrs);
    reading.at += used as u64;
    Ok(Some(used))
}

/// Takes what follows the attributes of the variable that has begun, in the same way.
pub fn take_tail(
    alloc: Global,
    reading: &mut Reading,
    rest: &[u8],
) -> Result<Option<usize>, AllocError>
    requires next { reading.old.next ≡ nexts.VarType }
    requires none { reading.old.held.items ≡ [] }
    requires within { reading.old.at + length rest.now ≤ reading.old.limit }
    ensures some { IfOk result (λ o. IfSome o (λ n. Went reading.old reading.new rest.now n)) }
    ensures less { IfOk result (λ o. IfSome o (λ n. effort_of reading.new < effort_of reading.old)) }
    ensures none { IfOk result (λ o. IfNone o (reading.new ≡ reading.old)) }
    ensures memory { IfErr result (λ _. 12 ≤ reading.old.at) }
    ensures needs { IfErr result (λ _. NeedsMemory reading.old.next reading.old.partial rest.now) }
{
    let version = reading.partial.lists.parts.version;
    let Some(tail) = whole_tail(version, rest) else {
        return Ok(None);
    };
    let used = rest.len() - tail.after.len();
    let var = end_var(alloc, &mut reading.partial.lists, tail.xtype);
    let place = VarPlace {
        vsize: tail.vsize,
        begin: tail.begin,
        begin_at: reading.at + used as u64 - version.offset_width() as u64,
    };
    match add_var(&mut reading.partial.lists.vars, var, place) {
        Ok(()) => {
            reading.next = next_var(&mut reading.partial);
            reading.at += used as u64;
            Ok(Some(used))
        }
        Err(error) => {
            // What a reading promises holds of any that begins, whatever was built.
            reading.next = Next::Magic;
            Err(error)
        }
    }
}
