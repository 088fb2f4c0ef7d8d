//! Whether a call of a builder is refused: each condition in its order.

ghost use Rattle.std.specs.Prelude.{◌≡◌, ◌↔◌, Bool, IsTrue, OnOk, leb, length};
ghost use Rattle.std.specs.List.{list_any};
ghost use Rattle.ncc_values.specs.Name.{FitsAsName, is_name};
ghost use Rattle.ncc_schema.specs.Schema.{is_record};
ghost use Rattle.ncc_build.specs.Building.{has_record_dim_not_first, attr_names, first_refusal, lacks_type_for_version, IsJudged, refuses_attr_of};
ghost use Rattle.ncc_build.specs.Judging.{name_refusals, dims_refusals, kind_refusals, exceeds_count_for_version};

use crate::fault::WriteFault;
use crate::names::Names;
use ncc_schema::{Attr, Dim, limit_of_counts};
use ncc_values::{Values, Version, XType, name_fits};
use std::alloc::Global;

/// The most bytes of a name.
const NAME_LIMIT: usize = 256;

/// Judges a name beside those of its list. One that is too long isn't looked at.
pub fn judge_name(alloc: Global, names: &Names, name: &[u8]) -> Result<(), WriteFault>
    ensures fits { OnOk result (FitsAsName name.now) }
    ensures judged { (fits : Bool) → (IsTrue fits ↔ FitsAsName name.now)
        → IsJudged (first_refusal (name_refusals fits names.now name.now)) result }
{
    if name.len() > NAME_LIMIT || !name_fits(alloc, name)? {
        return Err(WriteFault::BadName);
    }
    if names.has(name) {
        return Err(WriteFault::DuplicateName);
    }
    Ok(())
}

/// Is the dimension of this number the record dimension?
fn is_record(dims: &[Dim], id: usize) -> bool
    ensures { result ≡ is_record dims.now id }
{
    id < dims.len() && dims[id].length == 0
}

/// Is one of these no number of a dimension?
fn has_bad_dim_id(dims: &[Dim], ids: &[usize]) -> bool
    ensures { result ≡ list_any (leb (length dims.now)) ids.now }
{
    let number = dims.len();
    ids.iter().any(|id| *id >= number)
}

/// Is the record dimension one of these?
fn any_record(dims: &[Dim], ids: &[usize]) -> bool
    ensures { result ≡ list_any (is_record dims.now) ids.now }
{
    ids.iter().any(|id| is_record(dims, *id))
}

/// Is the record dimension one of those after the first?
fn has_record_dim_not_first(dims: &[Dim], ids: &[usize]) -> bool
    ensures { result ≡ has_record_dim_not_first dims.now ids.now }
{
    match ids {
        [] => false,
        [_, rest @ ..] => any_record(dims, rest),
    }
}

/// Judges the dimensions of a variable.
pub fn judge_ids(dims: &[Dim], ids: &[usize]) -> Result<(), WriteFault>
    ensures { IsJudged (first_refusal (dims_refusals dims.now ids.now)) result }
{
    if has_bad_dim_id(dims, ids) {
        return Err(WriteFault::BadDimId);
    }
    if has_record_dim_not_first(dims, ids) {
        return Err(WriteFault::RecordDimNotFirst);
    }
    Ok(())
}

/// Is one more item than so many, or this number, more than the version can tell?
pub fn exceeds_count_for_version(version: Version, items: usize, number: u64) -> bool
    ensures { result ≡ exceeds_count_for_version version items number }
{
    let limit = limit_of_counts(version);
    items as u64 >= limit - 1 || number >= limit
}

/// Does the version lack the type?
fn lacks_type_for_version(version: Version, xtype: XType) -> bool
    ensures { result ≡ lacks_type_for_version version xtype }
{
    XType::from_code(xtype.code(), version).is_none()
}

/// Judges a type, and the numbers of items and of what one more item has.
pub fn judge_kind(
    version: Version,
    xtype: XType,
    items: usize,
    number: usize,
) -> Result<(), WriteFault>
    ensures { IsJudged (first_refusal (kind_refusals version xtype items number)) result }
{
    if lacks_type_for_version(version, xtype) {
        return Err(WriteFault::TypeForVersion);
    }
    if exceeds_count_for_version(version, items, number as u64) {
        return Err(WriteFault::CountForVersion);
    }
    Ok(())
}

/// Judges an attribute after these.
pub fn judge_attr(
    alloc: Global,
    version: Version,
    attrs: &[Attr],
    names: &Names,
    name: &[u8],
    values: &Values,
) -> Result<(), WriteFault>
    requires { names.now ≡ attr_names attrs.now }
    ensures fits { OnOk result (FitsAsName name.now) }
    ensures judged { IsJudged (refuses_attr_of (is_name name.now) version attrs.now name.now values.now) result }
{
    judge_name(alloc, names, name)?;
    judge_kind(version, values.xtype(), attrs.len(), values.len())
}
