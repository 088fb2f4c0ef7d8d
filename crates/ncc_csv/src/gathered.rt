//! The bytes of a text that isn't whole yet.

/// The bytes of a text that were read, and the number of its row.
#[derive(Drop)]
pub struct Gathered {
    pub number: u64,
    pub text: Vec<u8>,
}
