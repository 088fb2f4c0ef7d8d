//! Opening files by their names.

ghost use Rattle.std.specs.Prelude.{◌≡◌, ◌<◌, true, false, IfOk};
ghost use Rattle.std.specs.Fs.{new_options, with_write, with_create_new};
ghost use Rattle.ncc_store.specs.File.{file_of, file_ready, file_failures};
ghost use Rattle.ncc_store.specs.DiskFile.{is_writable};

use crate::reasons::{Reason, reason_of};
use ncc_store::{FileStore, file_options};
use std::fs::{File, OpenOptions, TryLockError};
use std::io::ErrorKind;
use std::rt::Files;
use std::{fs, io, str};

/// A name as the system's calls take it here, which is UTF-8.
fn path_of(name: &[u8]) -> Result<&str, Reason> {
    match str::from_utf8(name) {
        Ok(path) => Ok(path),
        Err(_) => Err(Reason::NoText),
    }
}

/// Whether there is a file, and no folder, pipe or device.
fn expect_file<R: Files<File = File>>(rt: &R, path: &str) -> Result<(), Reason> {
    match fs::metadata(rt, path) {
        Ok(about) if about.is_file() => Ok(()),
        Ok(about) if about.is_dir() => Err(Reason::Folder),
        Ok(_) => Err(Reason::Special),
        Err(error) => Err(reason_of(error.kind())),
    }
}

/// Why a file can't be opened as a store.
fn refusal<R: Files<File = File>>(rt: &R, path: &str, write: bool) -> Reason {
    match file_options(write).open(rt, path) {
        Ok(file) if write => match file.try_lock() {
            Err(TryLockError::WouldBlock) => Reason::Locked,
            _ => Reason::Other,
        },
        Ok(_) => Reason::Other,
        Err(error) => reason_of(error.kind()),
    }
}

/// Opens a file that is there as a store; one that is to be written is locked, so that no other `ncc` writes it
/// meanwhile. A pipe or device isn't waited for.
fn open_store<R: Files<File = File>>(rt: &R, name: &[u8], write: bool) -> Result<FileStore, Reason>
    ensures ready { IfOk result (λ f. file_ready f ≡ write) }
    ensures writable { IfOk result (λ f. is_writable (file_of f) ≡ write) }
    ensures count { IfOk result (λ f. file_failures f ≡ 0) }
{
    let path = path_of(name)?;
    expect_file(rt, path)?;
    match FileStore::open(rt, path, write) {
        Ok(store) => Ok(store),
        Err(_) => Err(refusal(rt, path, write)),
    }
}

/// Opens a file that is there as a store that can't be written.
pub fn open_to_read<R: Files<File = File>>(rt: &R, name: &[u8]) -> Result<FileStore, Reason>
    ensures ready { IfOk result (λ f. file_ready f ≡ false) }
    ensures reads { IfOk result (λ f. is_writable (file_of f) ≡ false) }
    ensures count { IfOk result (λ f. file_failures f ≡ 0) }
{
    open_store(rt, name, false)
}

/// Opens a file to which so many records are to be added: with its lock, unless there are none.
pub fn open_to_extend<R: Files<File = File>>(
    rt: &R,
    name: &[u8],
    more: u64,
) -> Result<FileStore, Reason>
    ensures ready { 0 < more → IfOk result (λ f. file_ready f ≡ true) }
    ensures writable { 0 < more → IfOk result (λ f. is_writable (file_of f) ≡ true) }
    ensures unready { more ≡ 0 → IfOk result (λ f. file_ready f ≡ false) }
    ensures reads { more ≡ 0 → IfOk result (λ f. is_writable (file_of f) ≡ false) }
    ensures count { IfOk result (λ f. file_failures f ≡ 0) }
{
    open_store(rt, name, more > 0)
}

/// Opens a file that is there for reading. A pipe or device isn't waited for.
pub fn open_file<R: Files<File = File>>(rt: &R, name: &[u8]) -> Result<File, Reason> {
    let path = path_of(name)?;
    expect_file(rt, path)?;
    match fs::open(rt, path) {
        Ok(file) => Ok(file),
        Err(error) => Err(reason_of(error.kind())),
    }
}

/// What a file is opened with that is to be new: for writing, and only where nothing has its name.
fn new_file_options() -> OpenOptions
    ensures { result ≡ with_create_new (with_write new_options true) true }
{
    let mut options = OpenOptions::new();
    options.write(true).create_new(true);
    options
}

/// Makes a file that isn't there, and opens it for writing.
pub fn make_file<R: Files<File = File>>(rt: &R, name: &[u8]) -> Result<File, Reason> {
    match new_file_options().open(rt, path_of(name)?) {
        Ok(file) => Ok(file),
        Err(error) => Err(reason_of(error.kind())),
    }
}

/// Whether nothing has a name, not even a link that leads nowhere; or why it can't be had.
pub fn expect_free<R: Files<File = File>>(rt: &R, name: &[u8]) -> Result<(), Reason> {
    if name.is_empty() {
        return Err(Reason::Missing);
    }
    match fs::symlink_metadata(rt, path_of(name)?) {
        Ok(_) => Err(Reason::Exists),
        Err(error) if error.kind() == ErrorKind::NotFound => Ok(()),
        Err(error) => Err(reason_of(error.kind())),
    }
}

/// What came of a call of the system.
fn done(called: io::Result<()>) -> Result<(), Reason> {
    match called {
        Ok(()) => Ok(()),
        Err(error) => Err(reason_of(error.kind())),
    }
}

/// The errors of the system by which it says that a file system has no second names: EPERM, EMLINK, ENOSYS, EOPNOTSUPP,
/// and the ENOTSUPP of NFS.
const LINKLESS: [i32; 5] = [1, 31, 38, 95, 524];

/// Gives a file another name too, which nothing has, and says whether it could: false where the file system has no
/// second names.
pub fn link_file<R: Files<File = File>>(rt: &R, from: &[u8], to: &[u8]) -> Result<bool, Reason> {
    match fs::hard_link(rt, path_of(from)?, path_of(to)?) {
        Ok(()) => Ok(true),
        Err(error) => match error.raw_os_error() {
            Some(code) if LINKLESS.contains(&code) => Ok(false),
            _ => Err(reason_of(error.kind())),
        },
    }
}

/// Gives a file another name, in place of the file that has it.
pub fn rename_file<R: Files<File = File>>(rt: &R, from: &[u8], to: &[u8]) -> Result<(), Reason> {
    done(fs::rename(rt, path_of(from)?, path_of(to)?))
}

/// Removes a name.
pub fn remove_file<R: Files<File = File>>(rt: &R, name: &[u8]) -> Result<(), Reason> {
    done(fs::remove_file(rt, path_of(name)?))
}

/// The folder of a name.
pub fn folder_of(name: &[u8]) -> &[u8] {
    match name.iter().rposition(|byte| *byte == b'/') {
        Some(0) => b"/".as_slice(),
        Some(at) => name.split_at(at).0,
        None => b".".as_slice(),
    }
}

/// Opens the folder of a name.
pub fn open_folder<R: Files<File = File>>(rt: &R, name: &[u8]) -> Result<File, Reason> {
    let folder = path_of(folder_of(name))?;
    match OpenOptions::new().read(true).open(rt, folder) {
        Ok(folder) => Ok(folder),
        Err(error) => Err(reason_of(error.kind())),
    }
}

/// Brings to the disk which names are in the folder of this one.
pub fn sync_folder<R: Files<File = File>>(rt: &R, name: &[u8]) -> Result<(), Reason> {
    done(open_folder(rt, name)?.sync_all())
}
