//! Layouts of schemas that stand in memory: many variables, memory that is refused, and the laws.

mod laws;
mod many;
mod memory;
mod schemas;
