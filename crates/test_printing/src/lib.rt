//! Tests of what the commands print where a source, a store or a sink fails, and by how many calls. What the program shows
//! stands in `tests/*.rows`.
#![tactic(auto)]

#[cfg(test)]
mod batches;
#[cfg(test)]
mod converts;
#[cfg(test)]
mod extends;
#[cfg(test)]
mod failures;
#[cfg(test)]
mod helpers;
#[cfg(test)]
mod limits;
#[cfg(test)]
mod pages;
