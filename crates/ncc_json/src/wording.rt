//! How an answer is put.

/// How an answer is put.
#[derive(Clone, Copy, Debug, PartialEq, Eq)]
pub enum Wording {
    /// In lines.
    Words,
    /// As the members of a JSON object, without its braces.
    Members,
}
