//! A conversion whose new file is whole or not there.
#![tactic(auto)]

mod converting;

pub use converting::convert_store;
pub use ncc_target::{Entries, Entry, Linked, Target};
