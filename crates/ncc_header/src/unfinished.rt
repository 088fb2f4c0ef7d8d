//! Where in a header a decoder stands that awaits more bytes.

ghost use Rattle.std.specs.Prelude.{◌≡◌, length};
ghost use Rattle.ncc_header.specs.Awaited.{attr_part, list_part, named_owner, named_part, next_name, next_owner, next_part, owner_name, unfinished_of};

use crate::part::Part;
use crate::partial::{Lists, Named, Next, Owner, Partial};
use ncc_values::Name;

/// The part of a header that a decoder's next field is in, and the names that are known there.
#[derive(Debug, Drop)]
pub struct Unfinished {
    pub part: Part,
    /// That of the dimension, the attribute or the variable; none if it is still to come.
    pub name: Option<Name>,
    /// That of the variable that has the attribute.
    pub owner: Option<Name>,
}

/// An attribute, the next one of the list that has begun.
fn attr_part(owner: Owner, lists: &Lists) -> Part
    ensures { result ≡ attr_part owner lists.now }
{
    match owner {
        Owner::File => Part::Global(lists.attrs.len()),
        Owner::Variable => Part::Attr(lists.vars.vars.len(), lists.attrs.len()),
    }
}

/// The head of a list of attributes.
fn list_part(owner: Owner, lists: &Lists) -> Part
    ensures { result ≡ list_part owner lists.now }
{
    match owner {
        Owner::File => Part::GlobalList,
        Owner::Variable => Part::AttrList(lists.vars.vars.len()),
    }
}

/// What a name is of.
fn named_part(named: Named, lists: &Lists) -> Part
    ensures { result ≡ named_part named lists.now }
{
    match named {
        Named::Dim => Part::Dim(lists.parts.dims.len()),
        Named::Attr(owner) => attr_part(owner, lists),
        Named::Var => Part::Var(lists.vars.vars.len()),
    }
}

/// The part that the next field is in, if there is one.
fn next_part(next: Next, lists: &Lists) -> Option<Part>
    ensures { result ≡ next_part next lists.now }
{
    match next {
        Next::Magic | Next::VersionByte => Some(Part::Magic),
        Next::NumRecs => Some(Part::NumRecs),
        Next::DimsTag | Next::DimsCount(_) => Some(Part::DimList),
        Next::NameLength(named) => Some(named_part(named, lists)),
        Next::NameText(named, _) => Some(named_part(named, lists)),
        Next::NamePadding(named) => Some(named_part(named, lists)),
        Next::DimLength => Some(named_part(Named::Dim, lists)),
        Next::AttrsTag(owner) => Some(list_part(owner, lists)),
        Next::AttrsCount(owner, _) => Some(list_part(owner, lists)),
        Next::AttrType(owner) => Some(attr_part(owner, lists)),
        Next::AttrCount(owner, _) => Some(attr_part(owner, lists)),
        Next::AttrValues(owner, _) => Some(attr_part(owner, lists)),
        Next::AttrPadding(owner, _) => Some(attr_part(owner, lists)),
        Next::VarsTag | Next::VarsCount(_) => Some(Part::VarList),
        Next::DimIdsCount | Next::DimId(_) => Some(Part::Var(lists.vars.vars.len())),
        Next::VarType | Next::Vsize(_) => Some(Part::Place(lists.vars.vars.len())),
        Next::VarBegin(_, _) => Some(Part::Place(lists.vars.vars.len())),
        Next::Whole => None,
    }
}

/// The name of the variable that has the attribute, if a variable has it.
fn owner_name(owner: Owner, var: Name) -> Option<Name>
    ensures { result ≡ owner_name owner var }
{
    match owner {
        Owner::File => None,
        Owner::Variable => Some(var),
    }
}

/// The same where an attribute's name is read.
fn named_owner(named: Named, var: Name) -> Option<Name>
    ensures { result ≡ named_owner named var }
{
    match named {
        Named::Attr(owner) => owner_name(owner, var),
        Named::Dim => None,
        Named::Var => None,
    }
}

/// The name where the next field is, and that of the variable that has the attribute there, if these are known: `name` is
/// the last name that was read, and `var` that of the variable that has begun.
fn next_names(next: Next, name: Name, var: Name) -> (Option<Name>, Option<Name>)
    ensures name { result.0 ≡ next_name next name var }
    ensures owner { result.1 ≡ next_owner next var }
{
    match next {
        Next::DimLength => (Some(name), None),
        Next::NameLength(named) => (None, named_owner(named, var)),
        Next::NameText(named, _) => (None, named_owner(named, var)),
        Next::NamePadding(named) => (None, named_owner(named, var)),
        Next::AttrType(owner) => (Some(name), owner_name(owner, var)),
        Next::AttrCount(owner, _) => (Some(name), owner_name(owner, var)),
        Next::AttrValues(owner, _) => (Some(name), owner_name(owner, var)),
        Next::AttrPadding(owner, _) => (Some(name), owner_name(owner, var)),
        Next::AttrsTag(Owner::Variable) => (Some(var), None),
        Next::AttrsCount(Owner::Variable, _) => (Some(var), None),
        Next::DimIdsCount | Next::DimId(_) => (Some(var), None),
        Next::VarType | Next::Vsize(_) | Next::VarBegin(_, _) => (Some(var), None),
        _ => (None, None),
    }
}

/// Where in a header the next field is, after what the fields so far gave; none where no field is left.
pub fn where_next(next: Next, partial: Partial) -> Option<Unfinished>
    ensures { result ≡ unfinished_of next partial }
{
    let part = next_part(next, &partial.lists)?;
    let (last, lists) = (partial.name, partial.lists);
    let begun = lists.var;
    let (name, owner) = next_names(next, last, begun.name);
    Some(Unfinished { part, name, owner })
}
