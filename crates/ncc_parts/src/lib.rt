//! Which part of a header an offset is in, and the numbers by which a layout rule fails.
#![tactic(auto)]

mod broken;
mod extents;
pub mod laws;
mod part;
mod pieces;
mod state;

pub use broken::{Broken, broken_by, variable_at};
pub use extents::{extent_of, records_begin};
pub use ncc_header::{Part, Unfinished};
pub use part::{Piece, part_of};
pub use pieces::pieces_of;
pub use state::unfinished;
