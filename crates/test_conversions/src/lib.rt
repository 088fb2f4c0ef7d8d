//! Tests of conversions into a target that keeps its files in memory, and tells them; and of the folders of names.
#![tactic(auto)]

#[cfg(test)]
mod folders;
mod kept;
mod step;
#[cfg(test)]
mod tests;

pub use kept::{Fault, Kept};
pub use step::Step;
