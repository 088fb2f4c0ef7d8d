//! Selections of files that are given by their bytes: parts, calls of the store, stores that fail, and memory that is
//! refused.

mod failing;
mod files;
mod helpers;
mod memory;
mod parts;
