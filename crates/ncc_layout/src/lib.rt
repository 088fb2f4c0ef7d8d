//! Where the elements of a netCDF classic file lie: sizes, places, and the rules by which no two share a byte.
#![tactic(auto)]

mod element;
mod extent;
mod fault;
mod judging;
pub mod laws;
mod packing;
mod placed_file;
mod placed_var;
mod placing;
mod plan_fault;
mod planning;
mod records;
mod rules;
mod size_list;
mod sizing;
mod vsize;

pub use element::place;
pub use extent::Extent;
pub use fault::{LayoutFault, LayoutFaultKind, PlaceError, SizeError};
pub use placed_file::Placed;
pub use placed_var::PlacedVar;
pub use placing::{fault_at, placed, placed_records};
pub use plan_fault::PlanFault;
pub use planning::{records_begin, standard};
pub use records::next_count;
pub use size_list::Sizes;
pub use sizing::sizes;
pub use vsize::vsize_word;
