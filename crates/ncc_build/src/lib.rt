//! Schemas of netCDF classic files that are to be written, built call by call.
#![tactic(auto)]

mod adding;
mod builder;
mod built;
mod fault;
mod header;
mod judging;
pub mod laws;
mod names;
mod ranges;
mod rebuilding;

pub use builder::SchemaBuilder;
pub use built::Built;
pub use fault::WriteFault;
pub use header::header_bytes;
pub use ranges::values_in_range;
pub use rebuilding::rebuilt;
