//! Rows in parts, and sinks and stores that fail.

mod failing;
mod helpers;
mod parts;
