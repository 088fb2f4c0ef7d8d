//! Whether every element of a file has its place.

ghost use Rattle.std.specs.Prelude.{◌≡◌, ◌≢◌, ◌<◌, [], Err, IsOk, IfOk, length};
ghost use Rattle.ncc_schema.specs.Schema.{places_of, LegalDims, Sound, Legal};
ghost use Rattle.ncc_layout.specs.Sizes.{AreSizes};
ghost use Rattle.ncc_layout.specs.Extents.{extents_of};
ghost use Rattle.ncc_layout.specs.Elements.{shape, placed_on, AreSized};
ghost use Rattle.ncc_layout.specs.Placed.{fault_at, IsFrame, IsLaid, HasLaid, JudgedAs, RecordsAs, PlacedAs};

use crate::extent::Extent;
use crate::fault::{LayoutFault, LayoutFaultKind, PlaceError};
use crate::judging::{Frame, first_fault};
use crate::placed_file::Placed;
use crate::placed_var::PlacedVar;
use crate::records::record_count;
use crate::size_list::Sizes;
use crate::sizing::inner_dims;
use ncc_schema::{Dim, Header, Schema, Var, VarPlace, is_record_var};
use ncc_values::Seq;
use std::alloc::{AllocError, Global};

/// The extents of the variables.
fn extents_of(alloc: Global, header: &Header, sizes: &Sizes) -> Result<Vec<Extent>, AllocError>
    requires legal { Legal header.now.schema (places_of header.now.places) }
    requires sizes { AreSizes header.now.schema sizes.now }
    ensures extents { IfOk result (λ v. v.items ≡ extents_of header.now.schema (places_of header.now.places)) }
    ensures none { header.now.schema.vars ≡ [] → IsOk result }
{
    let dims = header.schema.dims.as_slice();
    let vars = header.schema.vars.as_slice();
    let places = header.places.as_slice();
    let slabs = sizes.slabs.as_slice();
    let mut extents = Vec::with_capacity(alloc, vars.len())?;
    for variable in 0..vars.len() {
        extents.push(Extent {
            begin: places[variable].begin,
            slab: slabs[variable],
            variable,
            is_record: is_record_var(dims, &vars[variable]),
        })?;
    }
    Ok(extents)
}

/// The lengths of a variable, with the number of records.
fn shape_of(alloc: Global, dims: &[Dim], var: &Var, records: u64) -> Result<Seq<u64>, AllocError>
    requires { LegalDims dims.now var.now.dims }
    ensures { IfOk result (λ lengths. lengths ≡ shape dims.now records var.now) }
{
    let mut lengths = Vec::new(alloc);
    if is_record_var(dims, var) {
        lengths.push(records)?;
    }
    for id in inner_dims(dims, var) {
        lengths.push(dims[*id].length)?;
    }
    Ok(Seq::from_vec(lengths))
}

/// The variables at their places.
fn vars_of(
    alloc: Global,
    schema: &Schema,
    extents: &[Extent],
    records: u64,
) -> Result<Vec<PlacedVar>, AllocError>
    requires sound { Sound schema.now }
    requires long { length extents.now ≡ length schema.now.vars }
    ensures placed { IfOk result (λ placed. placed.items
        ≡ placed_on schema.now.dims records schema.now.vars extents.now) }
    ensures none { schema.now.vars ≡ [] → IsOk result }
{
    let dims = schema.dims.as_slice();
    let vars = schema.vars.as_slice();
    let mut placed = Vec::new(alloc);
    for variable in 0..vars.len() {
        let var = &vars[variable];
        placed.push(PlacedVar {
            xtype: var.xtype,
            shape: shape_of(alloc, dims, var, records)?,
            extent: extents[variable],
        })?;
    }
    Ok(placed)
}

/// The fault of a variable, at its begin field.
pub fn fault_at(places: &[VarPlace], kind: LayoutFaultKind, variable: usize) -> LayoutFault
    requires { variable < length places.now }
    ensures { result ≡ fault_at places.now kind variable }
{
    LayoutFault {
        kind,
        offset: places[variable].begin_at,
    }
}

/// The numbers by which the extents are judged.
fn frame_of(header: &Header, sizes: &Sizes, extents: &[Extent], file_length: u64) -> Frame
    requires legal { Legal header.now.schema (places_of header.now.places) }
    requires sizes { AreSizes header.now.schema sizes.now }
    requires extents { extents.now ≡ extents_of header.now.schema (places_of header.now.places) }
    ensures { IsFrame header.now.schema (places_of header.now.places) header.now.length file_length result }
{
    let record_size = sizes.record_size;
    Frame {
        header_length: header.length,
        file_length,
        record_size,
        records: record_count(extents, header.schema.count, record_size, file_length),
    }
}

/// The variables at places that keep all rules.
fn lay(
    alloc: Global,
    schema: &Schema,
    extents: &[Extent],
    frame: Frame,
) -> Result<Placed, AllocError>
    requires sound { Sound schema.now }
    requires long { length extents.now ≡ length schema.now.vars }
    requires laid { IsLaid frame (placed_on schema.now.dims frame.records schema.now.vars extents.now) }
    requires sized { AreSized frame.record_size (placed_on schema.now.dims frame.records schema.now.vars extents.now) }
    ensures laid { IfOk result (HasLaid frame (placed_on schema.now.dims frame.records schema.now.vars extents.now)) }
    ensures none { schema.now.vars ≡ [] → IsOk result }
{
    let vars = vars_of(alloc, schema, extents, frame.records)?;
    Ok(Placed::new(
        frame.header_length,
        frame.file_length,
        frame.record_size,
        frame.records,
        vars,
    ))
}

/// If a file of this length keeps all rules, the numbers by which it was judged; else the first layout fault.
fn judged(
    alloc: Global,
    header: &Header,
    sizes: &Sizes,
    file_length: u64,
) -> Result<Frame, PlaceError>
    requires legal { Legal header.now.schema (places_of header.now.places) }
    requires sizes { AreSizes header.now.schema sizes.now }
    ensures judged { JudgedAs header.now.schema header.now.places header.now.length file_length result }
    ensures none { header.now.schema.vars ≡ [] → result ≢ Err PlaceError.Memory }
{
    let mut extents = extents_of(alloc, header, sizes)?;
    let frame = frame_of(header, sizes, &extents, file_length);
    match first_fault(&mut extents, frame) {
        Some((kind, variable)) => Err(PlaceError::Fault(fault_at(
            header.places.as_slice(),
            kind,
            variable,
        ))),
        None => Ok(frame),
    }
}

/// The variables of a file of this length at their places, or the first layout fault.
pub fn placed(
    alloc: Global,
    header: &Header,
    sizes: &Sizes,
    file_length: u64,
) -> Result<Placed, PlaceError>
    requires legal { Legal header.now.schema (places_of header.now.places) }
    requires sizes { AreSizes header.now.schema sizes.now }
    ensures placed { PlacedAs header.now.schema header.now.places header.now.length file_length result }
    ensures none { header.now.schema.vars ≡ [] → result ≢ Err PlaceError.Memory }
{
    let frame = judged(alloc, header, sizes, file_length)?;
    // Made again: while they were judged, they may have been put into another order.
    let extents = extents_of(alloc, header, sizes)?;
    Ok(lay(alloc, &header.schema, &extents, frame)?)
}

/// The number of records of a file of this length, or the first layout fault, as `placed` finds it. It makes no list of
/// the variables at their places.
pub fn placed_records(
    alloc: Global,
    header: &Header,
    sizes: &Sizes,
    file_length: u64,
) -> Result<u64, PlaceError>
    requires legal { Legal header.now.schema (places_of header.now.places) }
    requires sizes { AreSizes header.now.schema sizes.now }
    ensures records { RecordsAs header.now.schema header.now.places header.now.length file_length result }
    ensures none { header.now.schema.vars ≡ [] → result ≢ Err PlaceError.Memory }
{
    let frame = judged(alloc, header, sizes, file_length)?;
    Ok(frame.records)
}
