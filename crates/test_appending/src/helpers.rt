//! What a file answers to one more record, and what bytes hold.

use crate::cases::{Case, added};
use crate::files::file_of;
use ncc_check::{AppendError, NcFile, check};
use ncc_store::{MemStore, Store};
use std::alloc::{AllocError, Global};
use test_files::LIMIT;

/// An answer to one more record.
pub type Answer = Result<(), AppendError>;

/// What the file answers to one more record; where its device fails, also to the same record again, and else whether one
/// could be added then.
pub fn answers<S: Store>(file: &mut NcFile<S>, image: &[u8]) -> (Answer, Answer) {
    if let Err(refused) = file.appendable() {
        return (Err(refused), Err(refused));
    }
    if image.len() as u64 != file.placed().record_size() {
        return (Err(AppendError::WrongValues(0)), Ok(()));
    }
    match file.append_image(image) {
        Ok(()) => (Ok(()), file.appendable()),
        Err(failed) => (Err(failed), file.append_image(image)),
    }
}

/// The number of records, where the bytes pass.
pub fn records_in(alloc: Global, bytes: &[u8]) -> Result<Option<u64>, AllocError> {
    let mut store = MemStore::new(bytes.to_vec(alloc)?);
    match check(alloc, &mut store, LIMIT) {
        Ok(report) => Ok(Some(report.records)),
        Err(_) => Ok(None),
    }
}

/// Whether bytes begin with the old ones, as far as the old records go.
fn is_old(alloc: Global, case: &Case, bytes: &[u8]) -> Result<bool, AllocError> {
    let mut old = file_of(alloc, &case.file)?;
    old.truncate(case.end);
    Ok(bytes.starts_with(old.as_slice()))
}

/// How many records the bytes hold more than the file: none or one. Nothing where they don't pass, or where a record is
/// another.
pub fn more_in(alloc: Global, case: &Case, bytes: &[u8]) -> Result<Option<u64>, AllocError> {
    let records = records_in(alloc, bytes)?;
    if records == Some(case.records) && is_old(alloc, case, bytes)? {
        return Ok(Some(0));
    }
    if records == case.records.checked_add(1) && added(alloc, case)?.as_slice() == bytes {
        return Ok(Some(1));
    }
    Ok(None)
}
