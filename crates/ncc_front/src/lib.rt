//! Whether a file passes, of which only the front is in memory.
#![tactic(auto)]

mod judging;
pub mod laws;
mod reading;

pub use judging::{Found, FrontRefusal, Judgement, examine_front, judge_front};
pub use reading::{FrontError, read_front};
