//! Where everything in a file lies: its header, its variables in the order in which they begin, its records.
#![tactic(auto)]

mod ends;
pub mod laws;
mod laying;
mod lines;
mod measuring;
mod objects;
mod ordering;
mod telling;

pub use ends::{Records, slabs_end};
pub use laying::{layout_engine, send_text};
pub use lines::{push_between, push_extent, push_record_line, push_rest, push_wide, variable_name};
pub use measuring::{Measured, measure};
pub use ordering::{extents_in, order};
pub use telling::{Laid, fault_object, lay};
