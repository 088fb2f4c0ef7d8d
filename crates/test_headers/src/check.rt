//! Files in stores: stores that fail, and memory that is refused.

mod failing;
mod helpers;
mod memory;
