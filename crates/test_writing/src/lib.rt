//! Tests of files that are written and read back, and of files in another version.
#![tactic(auto)]

#[cfg(test)]
mod adding_memory;
#[cfg(test)]
mod appending;
#[cfg(test)]
mod converting;
#[cfg(test)]
mod failing;
#[cfg(test)]
mod failing_once;
#[cfg(test)]
mod filled_pages;
#[cfg(test)]
mod full;
#[cfg(test)]
mod helpers;
#[cfg(test)]
mod laws;
#[cfg(test)]
mod memory;
#[cfg(test)]
mod mixes;
#[cfg(test)]
mod open_files;
#[cfg(test)]
mod pages;
#[cfg(test)]
mod plans;
#[cfg(test)]
mod round_trips;
#[cfg(test)]
mod rows;
#[cfg(test)]
mod stopping;
#[cfg(test)]
mod tables;
