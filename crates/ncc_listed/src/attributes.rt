//! Attributes as objects.

ghost use Rattle.std.specs.Prelude.{◌≡◌, ◌++◌, IfOk, OnOk, codes, map};
ghost use Rattle.std.specs.List.{flat_map};
ghost use Rattle.ncc_json.specs.Members.{bytes_member};
ghost use Rattle.ncc_listed.specs.Members.{attr_object, attrs_member, type_member};
ghost use Rattle.ncc_listed.specs.Values.{values_member};

use crate::numbers::put_numbers;
use json::Writer;
use ncc_header::{Attr, Values};
use ncc_json::{put_bytes_member, put_list, put_text};
use ncc_lines::FloatStyle;
use ncc_values::{Char, XType};
use std::alloc::{AllocError, Global};

/// Adds the type of values.
#[tactic(auto, unfolding(crate::specs::Members::type_member))]
pub fn put_type(out: &mut Writer, xtype: XType) -> Result<(), AllocError>
    ensures tokens { OnOk result (out.new.tokens ≡ out.old.tokens ++ type_member xtype) }
    ensures before { out.new.before ≡ out.old.before }
{
    put_text(out, "type", xtype.word())
}

/// The bytes of characters.
fn bytes_of(alloc: Global, chars: &[Char]) -> Result<Vec<u8>, AllocError>
    ensures { IfOk result (λ v. v.items ≡ map (λ c. c.0) chars.now) }
{
    let mut bytes = Vec::with_capacity(alloc, chars.len())?;
    for c in chars {
        bytes.push(c.0)?;
    }
    Ok(bytes)
}

/// Adds values that are characters, as a text.
fn put_chars(alloc: Global, out: &mut Writer, chars: &[Char]) -> Result<(), AllocError>
    ensures tokens { OnOk result
        (out.new.tokens ≡ out.old.tokens ++ bytes_member (codes "values") (map (λ c. c.0) chars.now)) }
    ensures before { out.new.before ≡ out.old.before }
{
    let bytes = bytes_of(alloc, chars)?;
    put_bytes_member(alloc, out, "values", &bytes)
}

/// Adds the values of an attribute.
fn put_values(
    alloc: Global,
    out: &mut Writer,
    values: &Values,
    style: FloatStyle,
) -> Result<(), AllocError>
    ensures tokens { OnOk result (out.new.tokens ≡ out.old.tokens ++ values_member style values.now) }
    ensures before { out.new.before ≡ out.old.before }
{
    match values {
        Values::Bytes(items) => put_numbers(alloc, out, items.as_slice(), style),
        Values::Chars(items) => put_chars(alloc, out, items.as_slice()),
        Values::Shorts(items) => put_numbers(alloc, out, items.as_slice(), style),
        Values::Ints(items) => put_numbers(alloc, out, items.as_slice(), style),
        Values::Floats(items) => put_numbers(alloc, out, items.as_slice(), style),
        Values::Doubles(items) => put_numbers(alloc, out, items.as_slice(), style),
        Values::UBytes(items) => put_numbers(alloc, out, items.as_slice(), style),
        Values::UShorts(items) => put_numbers(alloc, out, items.as_slice(), style),
        Values::UInts(items) => put_numbers(alloc, out, items.as_slice(), style),
        Values::Int64s(items) => put_numbers(alloc, out, items.as_slice(), style),
        Values::UInt64s(items) => put_numbers(alloc, out, items.as_slice(), style),
    }
}

/// Adds an attribute.
#[tactic(auto, unfolding(crate::specs::Members::attr_object))]
fn put_attr(
    alloc: Global,
    out: &mut Writer,
    attr: &Attr,
    style: FloatStyle,
) -> Result<(), AllocError>
    ensures tokens { OnOk result (out.new.tokens ≡ out.old.tokens ++ attr_object style attr.now) }
    ensures before { out.new.before ≡ out.old.before }
{
    out.begin_object()?;
    put_bytes_member(alloc, out, "name", attr.name.as_slice())?;
    put_type(out, attr.values.xtype())?;
    put_values(alloc, out, &attr.values, style)?;
    out.end_object()?;
    Ok(())
}

/// Adds attributes, one after the other.
fn put_each(
    alloc: Global,
    out: &mut Writer,
    attrs: &[Attr],
    style: FloatStyle,
) -> Result<(), AllocError>
    ensures tokens { OnOk result (out.new.tokens ≡ out.old.tokens ++ flat_map (attr_object style) attrs.now) }
    ensures before { out.new.before ≡ out.old.before }
{
    for attr in attrs {
        put_attr(alloc, out, attr, style)?;
    }
    Ok(())
}

/// Adds the list of attributes, of a variable or of the whole file.
#[tactic(auto, unfolding(crate::specs::Members::attrs_member))]
pub fn put_attrs(
    alloc: Global,
    out: &mut Writer,
    attrs: &[Attr],
    style: FloatStyle,
) -> Result<(), AllocError>
    ensures tokens { OnOk result (out.new.tokens ≡ out.old.tokens ++ attrs_member style attrs.now) }
    ensures before { out.new.before ≡ out.old.before }
{
    put_list(out, "attributes")?;
    put_each(alloc, out, attrs, style)?;
    out.end_array()?;
    Ok(())
}
