//! A verdict in words: each fault and note with the part of the header that it is in, its numbers, and its rule.
#![tactic(auto)]

mod adding;
mod examining;
mod explaining;
mod front;
mod likeness;
mod members;
mod numbers;
mod objects;
mod parts;
mod rules;
mod site;
mod telling;

pub use explaining::explain_engine;
