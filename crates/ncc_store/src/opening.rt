//! Opening a file of the disk.

ghost use Rattle.std.specs.Prelude.{◌≡◌, true, IfOk};
ghost use Rattle.std.specs.Fs.{new_options, with_read, with_write};
ghost use Rattle.ncc_store.specs.DiskFile.{is_writable};

use crate::disk_file::DiskFile;
use ncc_values::Device;
use std::fs;
use std::fs::{File, OpenOptions};
use std::rt::Files;

/// How a file is opened: for reading, and where `write` says so for writing. None is made, and none is cut.
pub fn file_options(write: bool) -> OpenOptions
    ensures { result ≡ with_write (with_read new_options true) write }
{
    let mut options = OpenOptions::new();
    options.read(true).write(write);
    options
}

/// Opens a file that is there. `Device` comes where the system refuses it, where it is no regular file (a pipe is not
/// waited for), and where it is to be written and another has its lock.
pub(crate) fn open<R: Files<File = File>>(
    rt: &R,
    path: &str,
    write: bool,
) -> Result<DiskFile, Device>
    ensures writable { IfOk result (λ f. is_writable f ≡ write) }
{
    if !fs::metadata(rt, path).is_ok_and(|about| about.is_file()) {
        return Err(Device);
    }
    match file_options(write).open(rt, path) {
        Ok(file) if file.metadata().is_ok_and(|about| about.is_file()) => take(file, write),
        _ => Err(Device),
    }
}

/// Takes the lock, where the file is to be written.
fn take(file: File, write: bool) -> Result<DiskFile, Device>
    ensures writable { IfOk result (λ f. is_writable f ≡ write) }
{
    if write {
        return DiskFile::locked(file);
    }
    Ok(DiskFile::unlocked(file))
}
