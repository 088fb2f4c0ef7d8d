//! Headers: sources that fail, decoding where memory is refused, the text of a fault, and the laws.

mod helpers;
mod laws;
mod memory;
mod sources;
