//! How many bytes of a header are surely still to come: each item that is left has a least size. It is that
//! of CDF-1, whose fields are the shortest, without padding.

ghost use Rattle.std.specs.Prelude.{◌≡◌, ◌<◌, ◌^◌};
ghost use Rattle.ncc_header.specs.Least.{rest_of_dims, rest_of_vars, rest_of_owner, rest_of_attrs, rest_of_named, rest_of};

use crate::partial::{Lists, Named, Next, Owner};

/// The least sizes of items in bytes: a dimension is a name and a length, an attribute is a name, a type
/// and a number of values, and a variable is a name, a rank, a list of attributes, a type, a size and an
/// offset.
const DIMENSION: u128 = 8;

const ATTRIBUTE: u128 = 12;

const VARIABLE: u128 = 28;

/// The bytes after the dimension that has begun: two lists follow those that are left.
fn bytes_after_dim(lists: &Lists) -> u128
    ensures value { result ≡ rest_of_dims lists.now }
    ensures fits { result < 2 ^ 70 }
{
    lists.dims_left as u128 * DIMENSION + 16
}

/// The bytes after the variable that has begun.
fn bytes_after_var(lists: &Lists) -> u128
    ensures value { result ≡ rest_of_vars lists.now }
    ensures fits { result < 2 ^ 70 }
{
    lists.vars.left as u128 * VARIABLE
}

/// The bytes after a list of attributes: a list of variables, or a type, a size and an offset.
fn bytes_after_attrs(owner: Owner, lists: &Lists) -> u128
    ensures value { result ≡ rest_of_owner owner lists.now }
    ensures fits { result < 2 ^ 71 }
{
    match owner {
        Owner::File => 8,
        Owner::Variable => 12 + bytes_after_var(lists),
    }
}

/// The bytes after the attribute that has begun.
fn bytes_after_attr(owner: Owner, lists: &Lists) -> u128
    ensures value { result ≡ rest_of_attrs owner lists.now }
    ensures fits { result < 2 ^ 72 }
{
    lists.attrs_left as u128 * ATTRIBUTE + bytes_after_attrs(owner, lists)
}

/// The bytes after a name.
fn bytes_after_name(named: Named, lists: &Lists) -> u128
    ensures value { result ≡ rest_of_named named lists.now }
    ensures fits { result < 2 ^ 73 }
{
    match named {
        Named::Dim => 4 + bytes_after_dim(lists),
        Named::Attr(owner) => 8 + bytes_after_attr(owner, lists),
        Named::Var => 24 + bytes_after_var(lists),
    }
}

/// How many bytes come at least after the next field.
pub fn rest(next: Next, lists: &Lists) -> u128
    ensures value { result ≡ rest_of next lists.now }
    ensures fits { result < 2 ^ 74 }
{
    match next {
        Next::Magic => 29,
        Next::VersionByte => 28,
        Next::NumRecs => 24,
        Next::DimsTag => 20,
        Next::DimsCount(_) => 16,
        Next::NameLength(named) | Next::NamePadding(named) => bytes_after_name(named, lists),
        Next::NameText(named, _) => bytes_after_name(named, lists),
        Next::DimLength => bytes_after_dim(lists),
        Next::AttrsTag(owner) => 4 + bytes_after_attrs(owner, lists),
        Next::AttrsCount(owner, _) => bytes_after_attrs(owner, lists),
        Next::AttrType(owner) => 4 + bytes_after_attr(owner, lists),
        Next::AttrCount(owner, _) => bytes_after_attr(owner, lists),
        Next::AttrValues(owner, _) | Next::AttrPadding(owner, _) => bytes_after_attr(owner, lists),
        Next::VarsTag => 4,
        Next::VarsCount(_) | Next::Whole => 0,
        Next::DimIdsCount => 20 + bytes_after_var(lists),
        Next::DimId(left) => left as u128 * 4 + 20 + bytes_after_var(lists),
        Next::VarType => 8 + bytes_after_var(lists),
        Next::Vsize(_) => 4 + bytes_after_var(lists),
        Next::VarBegin(_, _) => bytes_after_var(lists),
    }
}
