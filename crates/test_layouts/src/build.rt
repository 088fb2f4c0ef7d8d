//! Schemas that are built call by call.

mod helpers;
mod items;
mod many;
mod memory;
mod names;
mod plans;
mod steps;
