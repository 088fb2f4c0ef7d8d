//! What a decoder has come to.

use crate::fault::HeaderError;
use crate::reading::Reading;

/// It reads on, or it has failed: under this limit, with this error for good.
#[derive(Debug, Drop)]
pub enum State {
    Reading(Reading),
    Failed(u64, HeaderError),
}

/// What a decoder says of a piece.
#[derive(Clone, Copy, Debug, PartialEq, Eq)]
pub enum Fed {
    /// All bytes were taken, and the header goes on.
    More,
    /// The header is whole, and so many bytes of the piece belong to it.
    Done(usize),
}
