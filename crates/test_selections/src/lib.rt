//! Tests of selections, and of their sheets.
#![tactic(auto)]

#[cfg(test)]
mod csv;
#[cfg(test)]
mod slab;
