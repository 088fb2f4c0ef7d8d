//! Tests of headers and of files: sources and stores that fail, how often they are called, and memory that is refused.
#![tactic(auto)]

#[cfg(test)]
mod check;
#[cfg(test)]
mod header;
