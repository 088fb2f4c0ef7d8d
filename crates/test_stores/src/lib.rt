//! Stores: what they answer call by call, in memory, over files, and where a call fails.
#![tactic(auto)]

#[cfg(test)]
mod ahead;
#[cfg(test)]
mod file;
#[cfg(test)]
mod fuse;
#[cfg(test)]
mod growing;
#[cfg(test)]
mod log;
#[cfg(test)]
mod long;
#[cfg(test)]
mod memory;
#[cfg(test)]
mod steps;
