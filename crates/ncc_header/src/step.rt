//! One more field: the step that each field takes, and its size.

ghost use Rattle.std.specs.Prelude.{◌≡◌, ◌<◌, ◌^◌, ◌++◌, length, Some, IfOk};
ghost use Rattle.ncc_values.specs.Version.{count_width_of};
ghost use Rattle.ncc_header.specs.Left.{left_of, come_of, idle_of};
ghost use Rattle.ncc_header.specs.Steps.{size_of, Steps};

use crate::fault::StepError;
use crate::partial::{Next, Partial};
use crate::rules::attr::{
    after_attr_count, after_attr_padding, after_attr_type, after_attr_values, after_attrs_count,
    after_attrs_tag,
};
use crate::rules::dim::{after_dim_length, after_dims_count, after_dims_tag};
use crate::rules::magic::{after_magic, after_version};
use crate::rules::name::{after_name_length, after_name_padding, after_name_text};
use crate::rules::numrecs::after_numrecs;
use crate::rules::var::{
    after_begin, after_dimid, after_dimids_count, after_var_type, after_vars_count, after_vars_tag,
    after_vsize,
};
use ncc_values::{Version, pad};
use std::alloc::Global;

/// Takes the next field, and tells which one comes then. Its last bytes are `front`, after those that
/// stand where they stay. It begins at the offset `at`, which only the step over a begin field keeps; of
/// the others only the contracts speak of it.
pub fn step(
    alloc: Global,
    next: Next,
    partial: &mut Partial,
    at: u64,
    front: &[u8],
) -> Result<Next, StepError>
    requires whole { size_of (left_of next partial.old) ≡ Some (length (come_of next partial.old ++ front.now)) }
    requires small { length (come_of next partial.old ++ front.now) < 2 ^ 64 }
    ensures steps { Steps next partial.old at (come_of next partial.old ++ front.now) result partial.new }
    // Fields without bytes come to an end.
    ensures idle { length (come_of next partial.old ++ front.now) ≡ 0
        → IfOk result (λ after. idle_of after < idle_of next) }
{
    match next {
        Next::Magic => after_magic(partial, at, front),
        Next::VersionByte => after_version(partial, at, front),
        Next::NumRecs => after_numrecs(partial, at, front),
        Next::DimsTag => after_dims_tag(partial, at, front),
        Next::DimsCount(tag) => after_dims_count(alloc, partial, tag, at, front),
        Next::NameLength(named) => after_name_length(partial, named, at, front),
        Next::NameText(named, n) => after_name_text(partial, named, n, at, front),
        Next::NamePadding(named) => after_name_padding(alloc, partial, named, at, front),
        Next::DimLength => after_dim_length(alloc, partial, at, front),
        Next::AttrsTag(owner) => after_attrs_tag(partial, owner, at, front),
        Next::AttrsCount(owner, tag) => after_attrs_count(alloc, partial, owner, tag, at, front),
        Next::AttrType(owner) => after_attr_type(partial, owner, at, front),
        Next::AttrCount(owner, xtype) => after_attr_count(alloc, partial, owner, xtype, at, front),
        Next::AttrValues(owner, n) => after_attr_values(partial, owner, n, at, front),
        Next::AttrPadding(owner, n) => after_attr_padding(alloc, partial, owner, n, at, front),
        Next::VarsTag => after_vars_tag(partial, at, front),
        Next::VarsCount(tag) => after_vars_count(alloc, partial, tag, at, front),
        Next::DimIdsCount => after_dimids_count(alloc, partial, at, front),
        Next::DimId(left) => after_dimid(partial, left, at, front),
        Next::VarType => after_var_type(partial, at, front),
        Next::Vsize(xtype) => after_vsize(partial, xtype, at, front),
        Next::VarBegin(xtype, vsize) => after_begin(alloc, partial, xtype, vsize, at, front),
        Next::Whole => unreachable!(),
    }
}

/// The size of the next field in bytes; none where no field is left.
pub fn size(next: Next, partial: &Partial) -> Option<u128>
    ensures { result ≡ size_of (left_of next partial.now) }
{
    let version = partial.lists.parts.version;
    let size = match next {
        Next::Magic => 3,
        Next::VersionByte => 1,
        Next::DimsTag | Next::AttrsTag(_) | Next::VarsTag => 4,
        Next::AttrType(_) | Next::VarType => 4,
        Next::NameText(_, n) => n as u128,
        Next::NamePadding(_) => pad(partial.name.len() as u64) as u128,
        Next::AttrValues(_, n) => n as u128 * partial.body.values.xtype().size() as u128,
        Next::AttrPadding(_, n) => pad(n) as u128,
        Next::NumRecs | Next::DimsCount(_) | Next::AttrsCount(_, _) => width(version),
        Next::VarsCount(_) | Next::NameLength(_) | Next::DimLength => width(version),
        Next::AttrCount(_, _) | Next::DimIdsCount | Next::DimId(_) => width(version),
        Next::Vsize(_) => width(version),
        Next::VarBegin(_, _) => version.offset_width() as u128,
        Next::Whole => return None,
    };
    Some(size)
}

fn width(version: Version) -> u128
    ensures { result ≡ count_width_of version }
{
    version.count_width() as u128
}
