//! Where the elements of a selection lie, for callers that read a file's bytes themselves: as steps, and as runs of
//! adjoining elements. A variable is given by its own numbers, which may be those of no file.
#![tactic(auto)]

mod fault;
pub mod laws;
mod products;
mod reach;
mod runs;
mod steps;

pub use fault::RangeFault;
pub use runs::{SlabRuns, Stretch};
pub use steps::{Steps, steps_of};
