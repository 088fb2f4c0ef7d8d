//! Taking an attribute that is whole in a piece, with nothing to mark or to refuse, at once.

ghost use Rattle.std.specs.Prelude.{◌≡◌, ◌+◌, ◌*◌, ◌%◌, ◌≤◌, ◌<◌, [], ◌∷◌, ◌++◌, length, IfSome, IfNone, IfOk, IfErr, OnOk};
ghost use Rattle.std.specs.Vec.{vec_len, vec_capacity};
ghost use Rattle.ncc_values.specs.Values.{no_values, values_of};
ghost use Rattle.ncc_values.specs.XType.{size_of as bytes_each};
ghost use Rattle.ncc_header.specs.declared.partial.Named.TheVariants as named;
ghost use Rattle.ncc_header.specs.declared.partial.Next.TheVariants as nexts;
ghost use Rattle.ncc_header.specs.Fields.{attr};
ghost use Rattle.ncc_header.specs.AtFront.{AtFront, NeedsMemory, padded};
ghost use Rattle.ncc_header.specs.Reading.{Went, effort_of};

use crate::at_front::with_padding;
use crate::items::make_room;
use crate::partial::{Next, Owner};
use crate::reading::Reading;
use crate::rules::attr::{next_attr, whole_nc_type};
use crate::rules::list::whole_nelems;
use crate::rules::name::whole_name;
use ncc_schema::Attr;
use ncc_values::{Name, Values, Version, XType};
use std::alloc::{AllocError, Global};

/// An attribute at the front of a piece, and the bytes after it.
#[derive(Clone, Copy)]
struct Found<'a> {
    name: &'a [u8],
    xtype: XType,
    values: &'a [u8],
    after: &'a [u8],
}

/// [values ...] padding
#[inline]
fn whole_values(piece: &[u8], k: u64, xtype: XType) -> Option<(&[u8], &[u8])>
    ensures at_front { IfSome result (λ r. AtFront (padded (k * bytes_each xtype)) r.0.now piece.now r.1.now) }
    ensures whole { IfSome result (λ r. length r.0.now % bytes_each xtype ≡ 0) }
    ensures less { IfSome result (λ r. length r.1.now ≤ length piece.now) }
{
    let size = k as u128 * xtype.size() as u128;
    if size > piece.len() as u128 {
        return None;
    }
    let (values, after) = with_padding(piece, size as u64)?;
    Some((values, after))
}

/// attr = name nc_type nelems [values ...] padding
#[inline]
fn whole_attr(version: Version, piece: &[u8]) -> Option<Found<'_>>
    ensures at_front { IfSome result (λ x. AtFront (attr version)
        (record { name = x.name.now; values = values_of x.xtype x.values.now }) piece.now x.after.now) }
    ensures whole { IfSome result (λ x. length x.values.now % bytes_each x.xtype ≡ 0) }
    ensures less { IfSome result (λ x. length x.after.now < length piece.now) }
{
    let (name, rest) = whole_name(version, piece)?;
    let (xtype, rest) = whole_nc_type(version, rest)?;
    let (k, rest) = whole_nelems(version, rest)?;
    let (values, after) = whole_values(rest, k, xtype)?;
    Some(Found {
        name,
        xtype,
        values,
        after,
    })
}

/// Gives an attribute without name and values those that were found, where it stays.
#[inline]
fn fill(attr: &mut Attr, found: Found<'_>) -> Result<(), AllocError>
    requires empty { attr.old ≡ record { name = []; values = no_values found.xtype } }
    requires whole { length found.values.now % bytes_each found.xtype ≡ 0 }
    ensures { OnOk result (attr.new ≡ record {
      name = found.entry.name.now;
      values = values_of found.entry.xtype found.entry.values.now;
    }) }
{
    attr.name.extend_from_slice(found.name)?;
    attr.values.push_from(found.values)
}

/// Adds an attribute of this type without name and values, where there is room.
#[inline(always)]
fn push_empty_of(alloc: Global, attrs: &mut Vec<Attr>, xtype: XType)
    requires { vec_len attrs.old < vec_capacity attrs.old }
    ensures { attrs.new.items ≡ attrs.old.items ++ record { name = []; values = no_values xtype } ∷ [] }
{
    attrs.push_reserved(Attr {
        name: Name::new(alloc),
        values: Values::new(alloc, xtype),
    });
}

/// The same. Where the type is known before, the attribute is made in its place; else it is put together elsewhere
/// and moved, by reads that wait for the bytes that were just stored.
#[inline]
fn push_empty(alloc: Global, attrs: &mut Vec<Attr>, xtype: XType)
    requires { vec_len attrs.old < vec_capacity attrs.old }
    ensures { attrs.new.items ≡ attrs.old.items ++ record { name = []; values = no_values xtype } ∷ [] }
{
    match xtype {
        XType::Byte => push_empty_of(alloc, attrs, XType::Byte),
        XType::Char => push_empty_of(alloc, attrs, XType::Char),
        XType::Short => push_empty_of(alloc, attrs, XType::Short),
        XType::Int => push_empty_of(alloc, attrs, XType::Int),
        XType::Float => push_empty_of(alloc, attrs, XType::Float),
        XType::Double => push_empty_of(alloc, attrs, XType::Double),
        XType::UByte => push_empty_of(alloc, attrs, XType::UByte),
        XType::UShort => push_empty_of(alloc, attrs, XType::UShort),
        XType::UInt => push_empty_of(alloc, attrs, XType::UInt),
        XType::Int64 => push_empty_of(alloc, attrs, XType::Int64),
        XType::UInt64 => push_empty_of(alloc, attrs, XType::UInt64),
    }
}

/// Adds the attribute that was found, which so many follow. It is made in its place: to move it costs more.
#[inline]
fn push_found(
    alloc: Global,
    attrs: &mut Vec<Attr>,
    found: Found<'_>,
    left: u64,
) -> Result<(), AllocError>
    requires { length found.values.now % bytes_each found.xtype ≡ 0 }
    ensures { OnOk result (attrs.new.items ≡ attrs.old.items ++ record {
      name = found.entry.name.now;
      values = values_of found.entry.xtype found.entry.values.now;
    } ∷ []) }
{
    let number = attrs.len();
    make_room(attrs, left)?;
    push_empty(alloc, attrs, found.xtype);
    fill(&mut attrs[number], found)
}

/// Takes the attribute that comes next, where the rest of a piece, which is within the limit, begins with all of it and
/// nothing is to mark or to refuse, and tells how many bytes are its. Any other is left as it is, and needs no memory.
pub fn take_attr(
    alloc: Global,
    reading: &mut Reading,
    owner: Owner,
    rest: &[u8],
) -> Result<Option<usize>, AllocError>
    requires next { reading.old.next ≡ nexts.NameLength (named.Attr owner) }
    requires none { reading.old.held.items ≡ [] }
    requires within { reading.old.at + length rest.now ≤ reading.old.limit }
    ensures some { IfOk result (λ o. IfSome o (λ n. Went reading.old reading.new rest.now n)) }
    ensures less { IfOk result (λ o. IfSome o (λ n. effort_of reading.new < effort_of reading.old)) }
    ensures none { IfOk result (λ o. IfNone o (reading.new ≡ reading.old)) }
    ensures memory { IfErr result (λ _. 12 ≤ reading.old.at) }
    ensures needs { IfErr result (λ _. NeedsMemory reading.old.next reading.old.partial rest.now) }
{
    let Some(found) = whole_attr(reading.partial.lists.parts.version, rest) else {
        return Ok(None);
    };
    let used = rest.len() - found.after.len();
    let left = reading.partial.lists.attrs_left;
    match push_found(alloc, &mut reading.partial.lists.attrs, found, left) {
        Ok(()) => {
            reading.next = next_attr(alloc, &mut reading.partial, owner, left);
            reading.at += used as u64;
            Ok(Some(used))
        }
        Err(error) => {
            // What a reading promises holds of any that begins, whatever was built.
            reading.next = Next::Magic;
            Err(error)
        }
    }
}
