//! What a header says, as the members of a JSON object.
#![tactic(auto)]

mod attributes;
mod floats;
mod listing;
mod numbers;
mod objects;
mod telling;

pub use listing::{members_engine, members_store_engine};
