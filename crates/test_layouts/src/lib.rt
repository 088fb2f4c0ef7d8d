//! Tests of layouts, and of schemas that are built call by call.
#![tactic(auto)]

#[cfg(test)]
mod build;
#[cfg(test)]
mod layout;
