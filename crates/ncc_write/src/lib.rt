//! Writes netCDF classic files: values are put in the order in which they lie, through a buffer of one size.
#![tactic(auto)]

mod all_var_slabs;
mod appending;
mod extending;
mod filled;
mod image;
pub mod laws;
mod paged_sink;
mod planning;
mod putting;
mod slab_order;
mod starting;
mod trip;
mod trip_checking;
mod trip_fault;
mod trip_putting;
mod trip_reading;
mod var_slab;
mod whole;
mod writer;

pub use appending::append;
pub use extending::extend;
pub use filled::fill_record;
pub use ncc_build::{Built, SchemaBuilder, WriteFault};
pub use planning::planned;
pub use trip::round_trip;
pub use trip_fault::TripFault;
pub use whole::headline;
pub use writer::FileWriter;
