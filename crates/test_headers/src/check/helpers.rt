//! What the tests of files share.

use ncc_check::{NcFile, Refusal};
use ncc_store::Store;
use std::alloc::Global;

/// All bytes of an open file.
pub fn fetched<S: Store>(alloc: Global, file: &mut NcFile<S>) -> Result<Vec<u8>, Refusal> {
    let mut bytes = vec![in alloc; 0; file.placed().file_length() as usize]?;
    file.fetch(0, &mut bytes)?;
    Ok(bytes)
}
