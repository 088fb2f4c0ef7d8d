//! Runs what a command line asks for, over the system's files, and gives the status.
#![tactic(auto)]

mod converting_files;
mod folder;
mod input;
mod limited;
mod many;
mod progress;
mod runs;
mod single;

pub use ncc_status::finish;
pub use progress::Terminals;
pub use runs::run;
