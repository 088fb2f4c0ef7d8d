//! A part of a header, in words.

ghost use Rattle.std.specs.Prelude.{◌≡◌, ◌++◌, OnOk, codes, drop, option_map};
ghost use Rattle.ncc_schema.specs.declared.names.NameOf.TheVariants as of;
ghost use Rattle.ncc_schema.specs.Names.{first_attrs, name_of};
ghost use Rattle.ncc_explain.specs.Words.{in_line, item_words, name_in, numbered, owner_in, part_line, part_words, place_lines, variable_words};

use ncc_header::{Attr, Part, Schema, Unfinished};
use ncc_lines::{push_decimal, push_name};
use ncc_values::Name;
use std::alloc::AllocError;

/// The name of a dimension, or an empty one where there are not so many.
fn dim_name(schema: &Schema, number: usize) -> &[u8]
    ensures { result.now ≡ name_of schema.now (of.Dim number) }
{
    match schema.dims.as_slice().get(number) {
        Some(dim) => dim.name.as_slice(),
        None => &[],
    }
}

/// The name of a variable, or an empty one where there are not so many.
pub fn variable_name(schema: &Schema, number: usize) -> &[u8]
    ensures { result.now ≡ name_of schema.now (of.Var number) }
{
    match schema.vars.as_slice().get(number) {
        Some(var) => var.name.as_slice(),
        None => &[],
    }
}

/// The name of a global attribute, or an empty one where there are not so many.
fn global_name(schema: &Schema, number: usize) -> &[u8]
    ensures { result.now ≡ name_of schema.now (of.Global number) }
{
    match schema.gatts.as_slice().get(number) {
        Some(attr) => attr.name.as_slice(),
        None => &[],
    }
}

/// The attributes of a variable, or none where there are not so many variables.
fn attrs_of(schema: &Schema, variable: usize) -> &[Attr]
    ensures { result.now ≡ first_attrs (drop variable schema.now.vars) }
{
    match schema.vars.as_slice().get(variable) {
        Some(var) => var.attrs.as_slice(),
        None => &[],
    }
}

/// The name of an attribute of a variable, or an empty one where it isn't there.
fn attr_name(schema: &Schema, variable: usize, number: usize) -> &[u8]
    ensures { result.now ≡ name_of schema.now (of.Attr variable number) }
{
    match attrs_of(schema, variable).get(number) {
        Some(attr) => attr.name.as_slice(),
        None => &[],
    }
}

/// The name of the item of a part, if it is one of an item.
pub fn name_in(schema: &Schema, part: Part) -> Option<&[u8]>
    ensures { option_map (λ n. n.now) result ≡ name_in schema.now part }
{
    match part {
        Part::Dim(number) => Some(dim_name(schema, number)),
        Part::Global(number) => Some(global_name(schema, number)),
        Part::Var(number) => Some(variable_name(schema, number)),
        Part::AttrList(number) => Some(variable_name(schema, number)),
        Part::Attr(variable, number) => Some(attr_name(schema, variable, number)),
        Part::Place(number) => Some(variable_name(schema, number)),
        Part::Magic | Part::NumRecs | Part::DimList | Part::GlobalList | Part::VarList => None,
    }
}

/// The name of the variable that has the attribute of a part, if it is one of an attribute.
pub fn owner_in(schema: &Schema, part: Part) -> Option<&[u8]>
    ensures { option_map (λ n. n.now) result ≡ owner_in schema.now part }
{
    match part {
        Part::Attr(variable, _) => Some(variable_name(schema, variable)),
        _ => None,
    }
}

/// A name that may be known, as bytes.
pub fn known(name: &Option<Name>) -> Option<&[u8]>
    ensures { option_map (λ n. n.now) result ≡ name.now }
{
    match name {
        Some(name) => Some(name.as_slice()),
        None => None,
    }
}

/// Adds a variable in words.
#[tactic(auto, unfolding(crate::specs::Words::variable_words))]
pub fn push_variable(out: &mut Vec<u8>, schema: &Schema, number: usize) -> Result<(), AllocError>
    ensures { OnOk result (out.new.items ≡ out.old.items ++ variable_words schema.now number) }
{
    out.extend_from_slice(b"variable ")?;
    push_name(out, variable_name(schema, number))
}

/// Adds an item of a list by its number.
fn push_numbered(out: &mut Vec<u8>, kind: &[u8], number: usize) -> Result<(), AllocError>
    ensures { OnOk result (out.new.items ≡ out.old.items ++ numbered kind.now number) }
{
    out.extend_from_slice(kind)?;
    out.extend_from_slice(b"number ")?;
    push_decimal(out, number as u64)
}

/// Adds an item of a list, by its name if that is known.
fn push_item(
    out: &mut Vec<u8>,
    kind: &[u8],
    number: usize,
    name: Option<&[u8]>,
) -> Result<(), AllocError>
    ensures { OnOk result
        (out.new.items ≡ out.old.items ++ item_words kind.now number (option_map (λ n. n.now) name.entry)) }
{
    let Some(name) = name else {
        out.extend_from_slice(b"the name of ")?;
        return push_numbered(out, kind, number);
    };
    out.extend_from_slice(kind)?;
    push_name(out, name)
}

/// Adds words, and the variable that they are of.
fn push_of_variable(
    out: &mut Vec<u8>,
    words: &[u8],
    number: usize,
    name: Option<&[u8]>,
) -> Result<(), AllocError>
    ensures { OnOk result (out.new.items ≡ out.old.items
        ++ (words.now ++ item_words (codes "variable ") number (option_map (λ n. n.now) name.entry))) }
{
    out.extend_from_slice(words)?;
    push_item(out, b"variable ", number, name)
}

/// Adds an attribute of a variable.
fn push_attr(
    out: &mut Vec<u8>,
    variable: usize,
    number: usize,
    name: Option<&[u8]>,
    owner: Option<&[u8]>,
) -> Result<(), AllocError>
    ensures { OnOk result (out.new.items ≡ out.old.items ++ part_words (Part.Attr variable number)
        (option_map (λ n. n.now) name.entry) (option_map (λ n. n.now) owner.entry)) }
{
    push_item(out, b"attribute ", number, name)?;
    push_of_variable(out, b" of ", variable, owner)
}

/// Adds a part in words, with the name of its item, and of the variable that has the attribute, as far as they are known.
pub fn push_part(
    out: &mut Vec<u8>,
    part: Part,
    name: Option<&[u8]>,
    owner: Option<&[u8]>,
) -> Result<(), AllocError>
    ensures { OnOk result (out.new.items ≡ out.old.items
        ++ part_words part (option_map (λ n. n.now) name.entry) (option_map (λ n. n.now) owner.entry)) }
{
    match part {
        Part::Magic => out.extend_from_slice(b"the letters and the version"),
        Part::NumRecs => out.extend_from_slice(b"the number of records"),
        Part::DimList => out.extend_from_slice(b"the list of dimensions"),
        Part::Dim(number) => push_item(out, b"dimension ", number, name),
        Part::GlobalList => out.extend_from_slice(b"the list of global attributes"),
        Part::Global(number) => push_item(out, b"global attribute ", number, name),
        Part::VarList => {
            out.extend_from_slice(b"the list of variables")?;
            Ok(())
        }
        Part::Var(number) => push_item(out, b"variable ", number, name),
        Part::AttrList(number) => {
            push_of_variable(out, b"the list of attributes of ", number, name)
        }
        Part::Attr(variable, number) => push_attr(out, variable, number, name, owner),
        Part::Place(number) => push_item(out, b"variable ", number, name),
    }
}

/// Adds the line of a part.
#[tactic(auto, unfolding(crate::specs::Words::in_line))]
fn push_line(
    out: &mut Vec<u8>,
    part: Part,
    name: Option<&[u8]>,
    owner: Option<&[u8]>,
) -> Result<(), AllocError>
    ensures { OnOk result (out.new.items ≡ out.old.items
        ++ in_line part (option_map (λ n. n.now) name.entry) (option_map (λ n. n.now) owner.entry)) }
{
    out.extend_from_slice(b"    in ")?;
    push_part(out, part, name, owner)?;
    out.extend_from_slice(b"\n")?;
    Ok(())
}

/// Adds the line of a part of a whole header.
pub fn push_part_line(out: &mut Vec<u8>, schema: &Schema, part: Part) -> Result<(), AllocError>
    ensures { OnOk result (out.new.items ≡ out.old.items ++ part_line schema.now part) }
{
    push_line(out, part, name_in(schema, part), owner_in(schema, part))
}

/// Adds the line of the part in which a header goes on.
pub fn push_place(out: &mut Vec<u8>, place: &Option<Unfinished>) -> Result<(), AllocError>
    ensures { OnOk result (out.new.items ≡ out.old.items ++ place_lines place.now) }
{
    let Some(place) = place else {
        return Ok(());
    };
    push_line(out, place.part, known(&place.name), known(&place.owner))
}
