//! The calls of the headline in a row.

ghost use Rattle.ncc_build.specs.Builds.{schema_of};
ghost use Rattle.ncc_write.specs.Trips.{TripsAs};

use crate::starting::slab_order_of;
use crate::trip_checking::{due_by, passes};
use crate::trip_fault::TripFault;
use crate::trip_putting::written;
use crate::trip_reading::all_same;
use crate::whole::headline;
use ncc_build::{Built, header_bytes};
use ncc_check::{Refusal, open};
use ncc_header::laws::header_or_stop;
use ncc_layout::laws::placed_file_keeps_all_rules;
use ncc_store::MemStore;
use std::alloc::Global;

/// Writes a dataset, given by the bytes of its values in writing order, into memory; checks the file with this limit,
/// and opens it; then reads each slab and compares it with what was put. Nothing ever differs: unless memory is refused,
/// all is the same exactly where the bytes are as many as the schema's values have and the header isn't longer than the
/// limit.
pub fn round_trip(alloc: Global, built: Built, bytes: &[u8], limit: u64) -> Result<(), TripFault>
    ensures { TripsAs (schema_of built) bytes.now limit result }
{
    headline();
    header_or_stop();
    placed_file_keeps_all_rules();
    if limit < header_bytes(alloc, &built)?.len() as u64 {
        return Err(TripFault::HeaderTooLong);
    }
    let slab_order = slab_order_of(alloc, &built)?;
    let due = due_by(built.schema());
    let mut store = MemStore::new(written(alloc, built, bytes)?);
    passes(alloc, &mut store, limit, due)?;
    match open(alloc, store, limit) {
        Ok(file) => {
            let mut file = file;
            all_same(alloc, &mut file, &slab_order, bytes)
        }
        Err((_, Refusal::Fault(_))) => Err(TripFault::Differs),
        Err(_) => Err(TripFault::Memory),
    }
}
