//! A file of the system as a store.

ghost use Rattle.std.specs.Prelude.{◌≡◌, ◌+◌, ◌<◌, ◌≤◌, ◌^◌, true, false, length, take, drop, None, Some, IfOk, IsErr, IsSome, IsTrue, OnOk, OnErr};
ghost use Rattle.std.specs.IoError.{error_kind};
ghost use Rattle.std.specs.declared.io.Error.{Error};
ghost use Rattle.ncc_values.specs.Failures.{last_count, Counts, Rose};
ghost use Rattle.ncc_store.specs.Store.{written, FrontWritten, AfterWrite, Only, KeepsImages, Elapses, Unmoved};

use crate::device::end;
use crate::disk_file::DiskFile;
use crate::opening::open;
use crate::store::Store;
use crate::system_file::{SystemFile, write_whole};
use ncc_values::{Device, device_failure};
use std::fs::File;
use std::io;
use std::io::ErrorKind;
use std::rt::Files;

/// Keeps why a call failed.
fn keep(fault: &mut Option<io::Error>, error: io::Error)
    ensures { fault.new ≡ Some error }
{
    *fault = Some(error);
}

/// A file. The store tells what the file below tells; a file of the disk tells nothing. It is ready for writes and
/// syncs where it was opened for writing, until one of them fails: each later one fails without a call of the system.
/// Each fault of the system is a failure, and so is a read past the end. A write may be done in part where it fails.
#[derive(Drop)]
pub struct FileStore<F: SystemFile = DiskFile> {
    file: F,
    ready: bool,
    failures: u64,
    fault: Option<io::Error>,
    ghost counted: { failures ≤ last_count },
    ghost sound: { ready ≡ true → F.sound file ≡ true },
}

impl FileStore<DiskFile> {
    ghost use Rattle.ncc_store.specs.DiskFile.{is_writable};
    ghost use Rattle.ncc_store.specs.File.{fault_of, file_of, file_ready, file_failures};

    /// Opens a file that is there, for reading and, where `write` says so, for writing; then it has the file's lock.
    /// `Device` comes where the system refuses it, where it is no regular file, and where another has the lock.
    pub fn open<R: Files<File = File>>(
        rt: &R,
        path: &str,
        write: bool,
    ) -> Result<FileStore<DiskFile>, Device>
        ensures ready { IfOk result (λ f. file_ready f ≡ write) }
        ensures writable { IfOk result (λ f. is_writable (file_of f) ≡ write) }
        ensures count { IfOk result (λ f. file_failures f ≡ 0) }
        ensures fault { IfOk result (λ f. fault_of f ≡ None) }
    {
        let file = open(rt, path, write)?;
        Ok(FileStore::over(file, write))
    }
}

impl<F: SystemFile> FileStore<F> {
    ghost use Rattle.ncc_store.specs.File.{Asks, fault_of, file_of, file_ready, file_failures};

    /// The store of an open file, ready for writes and syncs or not.
    pub fn over(file: F, ready: bool) -> FileStore<F>
        requires { ready ≡ true → F.sound file ≡ true }
        ensures file { file_of result ≡ file }
        ensures ready { file_ready result ≡ ready }
        ensures count { file_failures result ≡ 0 }
        ensures fault { fault_of result ≡ None }
    {
        FileStore {
            file,
            ready,
            failures: 0,
            fault: None,
        }
    }

    /// Why the last call of the file that failed did, if one did.
    pub fn fault(&self) -> Option<ErrorKind>
        ensures some { (error : Error) → fault_of self.now ≡ Some error → result ≡ Some (error_kind error) }
        ensures none { fault_of self.now ≡ None → result ≡ None }
    {
        match &self.fault {
            Some(error) => Some(error.kind()),
            None => None,
        }
    }

    /// How often it failed, at most 2^64 - 1.
    pub fn failures(&self) -> u64
        ensures { result ≡ file_failures self.now }
    {
        self.failures
    }

    /// A call of the file that failed: keeps why, and counts it.
    fn fail(&mut self, error: io::Error) -> Device
        ensures file { file_of self.new ≡ file_of self.old }
        ensures ready { file_ready self.new ≡ file_ready self.old }
        ensures fault { fault_of self.new ≡ Some error }
        ensures rose { Rose (file_failures self.old) (file_failures self.new) }
    {
        keep(&mut self.fault, error);
        device_failure(&mut self.failures)
    }

    /// Fills `out`. It fails where that ends past the end of the file.
    fn fill(&mut self, place: u64, out: &mut [u8]) -> Result<(), Device>
        ensures told { IsTrue F.tells_bytes
            → OnOk result (out.new ≡ take (length out.old) (drop place (F.bytes (file_of self.old)))) }
        ensures asks { Asks self.old self.new result }
    {
        match self.file.fill(place, out) {
            Ok(()) => Ok(()),
            Err(error) => Err(self.fail(error)),
        }
    }

    /// The file below.
    pub fn file(&self) -> &F
        ensures { result.now ≡ file_of self.now }
    {
        &self.file
    }

    /// The file, with all that was done to it.
    pub fn into_file(self) -> F
        ensures { result ≡ file_of self }
    {
        let FileStore {
            file,
            ready: _,
            failures: _,
            fault: _,
        } = self;
        file
    }
}

impl<F: SystemFile> Store for FileStore<F> {
    ghost use Rattle.ncc_store.specs.File.{Alters, Asks, file_of, file_ready, file_failures};

    ghost tells_bytes = { F.tells_bytes };

    ghost tells_images = { F.tells_images };

    ghost bytes = { λ f. F.bytes (file_of f) };

    ghost images = { λ f. F.images (file_of f) };

    ghost moment = { λ f. F.moment (file_of f) };

    ghost images_since = { λ f. F.images_since (file_of f) };

    ghost failures = { file_failures };

    ghost calls = { λ f. 0 };

    ghost reach = { λ f. 0 };

    ghost are_bytes = { λ f. F.are_bytes (file_of f) };

    ghost stands = { λ f. F.stands (file_of f) };

    ghost counts_now = { λ f. F.counts_now (file_of f) };

    ghost only_now = { λ f. F.only_now (file_of f) };

    ghost at_most_last = { λ f. f.counted };

    fn len(&mut self) -> Result<u64, Device>
        ensures told { IsTrue F.tells_bytes → IfOk result (λ n. n ≡ length (F.bytes (file_of self.old))) }
        ensures asks { Asks self.old self.new result }
    {
        match self.file.size() {
            Ok(size) => Ok(size),
            Err(error) => Err(self.fail(error)),
        }
    }

    fn read_at(&mut self, place: u64, out: &mut [u8]) -> Result<(), Device>
        ensures told { IsTrue F.tells_bytes
            → OnOk result (out.new ≡ take (length out.old) (drop place (F.bytes (file_of self.old)))) }
        ensures asks { Asks self.old self.new result }
    {
        self.fill(place, out)
    }

    fn write_at(&mut self, place: u64, piece: &[u8]) -> Result<(), Device>
        requires end { place + length piece.now < 2 ^ 63 }
        requires begin { IsTrue F.tells_bytes → place ≤ length (F.bytes (file_of self.old)) }
        ensures ok { IsTrue F.tells_bytes
            → OnOk result (F.bytes (file_of self.new) ≡ written (F.bytes (file_of self.old)) place piece.now) }
        ensures err { IsTrue F.tells_bytes → OnErr result
            (FrontWritten (F.bytes (file_of self.old)) place piece.now (F.bytes (file_of self.new))) }
        ensures images { Elapses F.images F.moment F.images_since (file_of self.old) (file_of self.new)
            (AfterWrite place piece.now (F.images (file_of self.old))) }
        ensures one_call { length piece.now ≤ 8 → F.calls (file_of self.new) ≤ F.calls (file_of self.old) + 1 }
        ensures calls { F.calls (file_of self.new) ≤ F.calls (file_of self.old) + length piece.now }
        ensures alters { Alters self.old self.new result }
    {
        if !self.ready {
            return Err(device_failure(&mut self.failures));
        }
        match write_whole(&mut self.file, place, piece) {
            Ok(()) => Ok(()),
            Err(error) => {
                keep(&mut self.fault, error);
                Err(end(&mut self.ready, &mut self.failures))
            }
        }
    }

    fn sync(&mut self) -> Result<(), Device>
        ensures durable { OnOk result (Only (F.bytes (file_of self.new)) (F.images (file_of self.new))) }
        ensures unmoved { Unmoved F.bytes F.images F.moment F.images_since (file_of self.old) (file_of self.new) }
        ensures kept { OnErr result (KeepsImages (F.images (file_of self.old)) (F.images (file_of self.new))) }
        ensures one_call { F.calls (file_of self.new) ≤ F.calls (file_of self.old) + 1 }
        ensures alters { Alters self.old self.new result }
    {
        if !self.ready {
            return Err(device_failure(&mut self.failures));
        }
        match self.file.settle() {
            Ok(()) => Ok(()),
            Err(error) => {
                keep(&mut self.fault, error);
                Err(end(&mut self.ready, &mut self.failures))
            }
        }
    }
}
