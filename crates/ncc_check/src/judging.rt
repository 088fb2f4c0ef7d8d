//! The layout of a file, by its header and its length.

ghost use Rattle.std.specs.Prelude.{◌≡◌, ◌<◌, ℕ, [], length, IfErr, IfOk, IsOk};
ghost use Rattle.ncc_schema.specs.Schema.{places_of, Legal};
ghost use Rattle.ncc_layout.specs.Sizes.{AreSizes, FirstTooLarge};
ghost use Rattle.ncc_check.specs.Judging.{CountsRecords, LaysOut, RefusesSizes};

use crate::fault::{FileFault, Refusal};
use ncc_header::Header;
use ncc_layout::{
    LayoutFaultKind, PlaceError, Placed, SizeError, Sizes, fault_at, placed, placed_records, sizes,
};
use std::alloc::Global;

/// The variable of this number is too large.
fn too_large(header: &Header, number: usize) -> Refusal
    requires there { number < length header.now.places }
    requires first { FirstTooLarge header.now.schema number }
    ensures { (file : ℕ) → RefusesSizes header.now file result }
{
    let fault = fault_at(header.places.as_slice(), LayoutFaultKind::TooLarge, number);
    Refusal::Fault(FileFault::Layout(fault))
}

/// The sizes of a header's variables.
pub fn sizes_of(alloc: Global, header: &Header) -> Result<Sizes, Refusal>
    requires { Legal header.now.schema (places_of header.now.places) }
    ensures sizes { IfOk result (AreSizes header.now.schema) }
    ensures refuses { (file : ℕ) → IfErr result (RefusesSizes header.now file) }
    ensures none { header.now.schema.vars ≡ [] → IsOk result }
{
    match sizes(alloc, &header.schema) {
        Ok(found) => Ok(found),
        Err(SizeError::TooLarge(number)) => Err(too_large(header, number)),
        Err(SizeError::Memory) => Err(Refusal::Memory),
    }
}

/// The number of records of a header in a file of this length, if every element has its place.
pub fn record_count_of(
    alloc: Global,
    header: &Header,
    found: &Sizes,
    file_length: u64,
) -> Result<u64, Refusal>
    requires legal { Legal header.now.schema (places_of header.now.places) }
    requires sizes { AreSizes header.now.schema found.now }
    ensures { CountsRecords header.now file_length result }
{
    match placed_records(alloc, header, found, file_length) {
        Ok(records) => Ok(records),
        Err(PlaceError::Fault(fault)) => Err(Refusal::Fault(FileFault::Layout(fault))),
        Err(PlaceError::Memory) => Err(Refusal::Memory),
    }
}

/// The variables of a header at their places in a file of this length.
pub fn placed_of(
    alloc: Global,
    header: &Header,
    found: &Sizes,
    file_length: u64,
) -> Result<Placed, Refusal>
    requires legal { Legal header.now.schema (places_of header.now.places) }
    requires sizes { AreSizes header.now.schema found.now }
    ensures { LaysOut header.now file_length result }
{
    match placed(alloc, header, found, file_length) {
        Ok(placed) => Ok(placed),
        Err(PlaceError::Fault(fault)) => Err(Refusal::Fault(FileFault::Layout(fault))),
        Err(PlaceError::Memory) => Err(Refusal::Memory),
    }
}
