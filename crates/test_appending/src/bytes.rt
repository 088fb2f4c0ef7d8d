//! Bytes over others.

use std::alloc::{AllocError, Global};

/// The bytes up to a place; ff where there are fewer.
fn up_to(alloc: Global, bytes: &[u8], place: usize) -> Result<Vec<u8>, AllocError> {
    let (before, _rest) = bytes.split_at(place.min(bytes.len()));
    let mut front = before.to_vec(alloc)?;
    front.resize(place, 0xff)?;
    Ok(front)
}

/// The bytes with this piece at a place; ff where there are none before it.
pub fn with_piece(
    alloc: Global,
    bytes: &[u8],
    place: usize,
    piece: &[u8],
) -> Result<Vec<u8>, AllocError> {
    let mut new = up_to(alloc, bytes, place)?;
    new.extend_from_slice(piece)?;
    let (_over, behind) = bytes.split_at(new.len().min(bytes.len()));
    new.extend_from_slice(behind)?;
    Ok(new)
}

/// So many bytes ff.
pub fn ones(alloc: Global, count: usize) -> Result<Vec<u8>, AllocError> {
    let mut piece = Vec::new(alloc);
    piece.resize(count, 0xff)?;
    Ok(piece)
}
