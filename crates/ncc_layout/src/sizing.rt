//! The sizes of variables and of a record.

ghost use Rattle.std.specs.Prelude.{◌≡◌, ◌*◌, ◌<◌, ◌≤◌, List, [], map, IfErr, IfOk, IsOk};
ghost use Rattle.std.specs.List.{AllByRecursion};
ghost use Rattle.ncc_schema.specs.Schema.{IsFixed, LegalDims, Sound, is_record_var};
ghost use Rattle.ncc_layout.specs.Sizes.{in_u64, in_room, room, length_of, product, inner, slab, with_slab, Sums, Adds, NoneTooLarge, IsSizes};
ghost use Rattle.ncc_schema.specs.declared.schema.Var.{Var};

use crate::fault::SizeError;
use crate::size_list::Sizes;
use ncc_schema::{Dim, Schema, Var, is_record_var};
use ncc_values::{Seq, pad};
use std::alloc::Global;

/// The greatest size in bytes.
pub const ROOM: u64 = (1 << 63) - 4;

/// The numbers of its dimensions without the record dimension.
pub fn inner_dims<'a>(dims: &[Dim], var: &'a Var) -> &'a [usize]
    requires { LegalDims dims.now var.now.dims }
    ensures lengths { map (length_of dims.now) result.now ≡ inner dims.now var.now }
    ensures fixed { AllByRecursion (IsFixed dims.now) result.now }
{
    let ids = var.dims.as_slice();
    if is_record_var(dims, var) {
        &ids[1..]
    } else {
        ids
    }
}

/// The product of the lengths and the size, where it's below 2^64.
fn product(dims: &[Dim], ids: &[usize], size: u64) -> Option<u64>
    requires fixed { AllByRecursion (IsFixed dims.now) ids.now }
    requires positive { 0 < size }
    ensures { result ≡ in_u64 (product (map (length_of dims.now) ids.now) * size) }
{
    let mut bytes = size;
    for id in ids {
        match bytes.checked_mul(dims[*id].length) {
            Some(more) => bytes = more,
            None => return None,
        }
    }
    Some(bytes)
}

/// The variable's bytes, where they are fewer than 2^64.
fn slab(dims: &[Dim], var: &Var) -> Option<u64>
    requires { LegalDims dims.now var.now.dims }
    ensures { result ≡ in_u64 (slab dims.now var.now) }
{
    product(dims, inner_dims(dims, var), var.xtype.size() as u64)
}

/// The slab, where it's at most `ROOM`. So is then its padded size, as `ROOM` is a multiple of four.
fn fitting_slab(dims: &[Dim], var: &Var) -> Option<u64>
    requires { LegalDims dims.now var.now.dims }
    ensures { result ≡ in_room (slab dims.now var.now) }
{
    let bytes = slab(dims, var)?;
    if bytes > ROOM {
        return None;
    }
    Some(bytes)
}

/// Sums over the record variables so far.
#[derive(Clone, Copy)]
struct Totals {
    /// Is there one?
    any: bool,
    /// Of their padded sizes.
    sum: u64,
    /// The bytes of a record of them.
    size: u64,
}

/// The sums with one more record variable, where they aren't too large.
fn with_slab(totals: Totals, slab: u64) -> Option<Totals>
    requires sum { totals.sum ≤ room }
    requires slab { slab ≤ room }
    ensures { result ≡ with_slab totals slab }
{
    let sum = totals.sum + slab + pad(slab);
    if sum > ROOM {
        return None;
    }
    let size = if totals.any { sum } else { slab };
    Some(Totals {
        any: true,
        sum,
        size,
    })
}

/// The variable's slab, and the sums with it, where they aren't too large.
fn add_var(totals: Totals, dims: &[Dim], var: &Var) -> Option<(u64, Totals)>
    requires legal { LegalDims dims.now var.now.dims }
    requires room { totals.sum ≤ room }
    ensures { (before : List Var) → Sums dims.now before totals → NoneTooLarge dims.now before
        → Adds dims.now before var.now result }
{
    let slab = fitting_slab(dims, var)?;
    if !is_record_var(dims, var) {
        return Some((slab, totals));
    }
    Some((slab, with_slab(totals, slab)?))
}

/// Two lists with room for so many numbers.
fn empty_lists(alloc: Global, count: usize) -> Result<(Vec<u64>, Vec<u64>), SizeError>
    ensures empty { IfOk result (λ lists. (lists.0.items ≡ []) × (lists.1.items ≡ [])) }
    ensures err { IfErr result (λ e. e ≡ SizeError.Memory) }
    ensures none { count ≡ 0 → IsOk result }
{
    let Ok(slabs) = Vec::with_capacity(alloc, count) else {
        return Err(SizeError::Memory);
    };
    let Ok(rounded) = Vec::with_capacity(alloc, count) else {
        return Err(SizeError::Memory);
    };
    Ok((slabs, rounded))
}

/// The sizes of all variables and of a record, or the first variable for which they are too large.
pub fn sizes(alloc: Global, schema: &Schema) -> Result<Sizes, SizeError>
    requires { Sound schema.now }
    ensures sizes { IsSizes schema.now result }
    ensures none { schema.now.vars ≡ [] → IsOk result }
{
    let dims = schema.dims.as_slice();
    let vars = schema.vars.as_slice();
    let (mut slabs, mut rounded) = empty_lists(alloc, vars.len())?;
    let mut totals = Totals {
        any: false,
        sum: 0,
        size: 0,
    };
    for number in 0..vars.len() {
        let (slab, more) = match add_var(totals, dims, &vars[number]) {
            Some(added) => added,
            None => return Err(SizeError::TooLarge(number)),
        };
        totals = more;
        slabs.push(slab)?;
        rounded.push(slab + pad(slab))?;
    }
    Ok(Sizes {
        slabs: Seq::from_vec(slabs),
        rounded: Seq::from_vec(rounded),
        record_size: totals.size,
    })
}
