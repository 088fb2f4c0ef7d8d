//! Writes the dataset of an open file anew, in the version of a schema that was planned for it.
#![tactic(auto)]

mod converting;
mod copying;
pub mod laws;
mod lines;

pub use converting::convert;
pub use lines::{send_converted, send_plan_refusal};
