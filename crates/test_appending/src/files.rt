//! Files in tables.

use std::alloc::{AllocError, Global};
use test_files::bytes_of;

/// A file: words, of which some are others, with bytes after them, up to a length.
#[derive(Clone, Copy)]
pub struct File {
    pub words: &'static [u32],
    /// Words by their number.
    pub changes: &'static [(usize, u32)],
    pub data: &'static [u8],
    pub length: u64,
}

/// The words as they are changed.
fn changed(alloc: Global, file: &File) -> Result<Vec<u32>, AllocError> {
    let mut words = file.words.to_vec(alloc)?;
    for (number, word) in file.changes {
        if let Some(there) = words.get_mut(*number) {
            *there = *word;
        }
    }
    Ok(words)
}

/// The bytes of the file, or as many as stand there.
pub fn file_of(alloc: Global, file: &File) -> Result<Vec<u8>, AllocError> {
    let words = changed(alloc, file)?;
    let mut bytes = bytes_of(alloc, words.as_slice())?;
    bytes.extend_from_slice(file.data)?;
    if file.length < bytes.len() as u64 {
        bytes.truncate(file.length as usize);
    }
    Ok(bytes)
}
