//! A new file that gets its name when it is whole, over anything that gives files their names.
#![tactic(auto)]

mod closing;
mod entries;
mod target;

pub use closing::{close, make};
pub use entries::{Entries, Entry, Linked};
pub use target::Target;
