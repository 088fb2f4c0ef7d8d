//! Selections of a variable's elements: which elements they are, where they lie, and their values.
#![tactic(auto)]

mod axis;
mod fault;
mod fetching;
mod grid;
mod gridding;
pub mod laws;
mod locating;
mod parts;
mod places;
mod reader;
mod reading;
mod refusing;
mod slab;
mod whole_slab;

pub use axis::Axis;
pub use fault::SlabFault;
pub use fetching::stretch;
pub use grid::{Grid, Run};
pub use gridding::grid_of;
pub use locating::slab_place;
pub use parts::SlabParts;
pub use places::Places;
pub use reader::SlabReader;
pub use reading::read_slab;
pub use refusing::shape_fault;
pub use slab::Slab;
pub use whole_slab::slab_of;
