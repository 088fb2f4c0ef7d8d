//! The command line of `ncc`: its words, its options and their help.
#![tactic(auto)]

mod commands;
mod faults;
mod version;

pub use commands::command;
pub use faults::{FAULTS, asks_for_faults};
