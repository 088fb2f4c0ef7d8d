//! The values of attributes, as they are printed.

pub mod integers;
pub mod printed;
pub mod sending;
