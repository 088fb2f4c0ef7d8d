//! The header of a file that is to be written, and where its values go.
#![tactic(auto)]

mod planning;

pub use planning::{Plan, file_plan};
