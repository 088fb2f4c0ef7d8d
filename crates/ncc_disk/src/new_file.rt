//! A new file of the system, by its name.

ghost use Rattle.std.specs.Prelude.{◌≡◌, ◌≤◌, false, None};
ghost use Rattle.ncc_schema.specs.Sink.{write_failures};
ghost use Rattle.ncc_values.specs.Failures.{last_count, joint_count, Rose};

use crate::paths::{
    expect_free, link_file, make_file, open_folder, remove_file, rename_file, sync_folder,
};
use crate::reasons::{PART, Reason, reason_of};
use crate::watched::Watched;
use ncc_header::WriteSink;
use ncc_store::Device;
use ncc_target::{Entries, Entry, Linked, Target};
use ncc_values::count_failure;
use std::alloc::{AllocError, Global};
use std::fs::File;
use std::rt::Files;

/// The name of a file that is to be made, and that of its part.
#[derive(Drop)]
pub struct NewFile<'a, R> {
    files: &'a R,
    name: &'a [u8],
    part: Vec<u8>,
    entries: Entries,
    reason: Option<Reason>,
    in_folder: bool,
    failures: u64,
    ghost counted: { failures ≤ last_count },
}

/// The name of the part of a file.
fn part_of(alloc: Global, name: &[u8]) -> Result<Vec<u8>, AllocError> {
    let mut part = name.to_vec(alloc)?;
    part.extend_from_slice(PART)?;
    Ok(part)
}

impl<'a, R: Files<File = File>> NewFile<'a, R> {
    /// Nothing is made yet. An error is want of memory for the part's name.
    pub fn new(alloc: Global, files: &'a R, name: &'a [u8]) -> Result<NewFile<'a, R>, AllocError> {
        Ok(NewFile {
            files,
            name,
            part: part_of(alloc, name)?,
            entries: Entries {
                part: Entry::Absent,
                name: Entry::Absent,
                settled: false,
                unlinked: false,
            },
            reason: None,
            in_folder: false,
            failures: 0,
        })
    }

    /// Why it failed first, if it did.
    pub fn reason(&self) -> Option<Reason> {
        self.reason
    }

    /// Whether it was the folder that failed first.
    pub fn in_folder(&self) -> bool {
        self.in_folder
    }

    /// Keeps the first reason.
    fn note(&mut self, reason: Option<Reason>)
        ensures entries { self.new.entries ≡ self.old.entries }
        ensures count { self.new.failures ≡ self.old.failures }
    {
        if self.reason.is_none() {
            self.reason = reason;
        }
    }

    /// The file that was written through this, whose failures are counted.
    fn written(&mut self, out: WriteSink<Watched<File>>) -> File
        ensures entries { self.new.entries ≡ self.old.entries }
        ensures count { self.new.failures ≡ joint_count self.old.failures (write_failures out) }
    {
        self.failures = self.failures.saturating_add(out.failures());
        let watched = out.into_inner();
        self.note(watched.reason());
        watched.into_inner()
    }

    /// A failure for this reason.
    fn fail(&mut self, reason: Reason) -> Device
        ensures entries { self.new.entries ≡ self.old.entries }
        ensures rose { Rose self.old.failures self.new.failures }
    {
        self.note(Some(reason));
        count_failure(&mut self.failures);
        Device
    }

    /// A failure of the folder for this reason.
    fn fail_folder(&mut self, reason: Reason) -> Device
        ensures entries { self.new.entries ≡ self.old.entries }
        ensures rose { Rose self.old.failures self.new.failures }
    {
        if self.reason.is_none() {
            self.in_folder = true;
        }
        self.fail(reason)
    }
}

impl<'a, R: Files<File = File>> Target for NewFile<'a, R> {
    ghost use Rattle.ncc_store.specs.StoreLaws.{untold};

    type Out = WriteSink<Watched<File>>;

    ghost tells_bytes = { false };

    ghost part = { λ _. None };

    ghost named = { λ _. None };

    ghost names = { λ _ _. ⊥ };

    ghost moment = { λ _. 0 };

    ghost names_since = { λ _ _ _. ⊥ };

    ghost entries = { λ t. t.entries };

    ghost failures = { λ t. t.failures };

    ghost makes = { λ _. 0 };

    ghost stands = { λ _ told. untold told };

    ghost counts_now = { λ _ _ _ _ now. now };

    ghost only_now = { λ _ _ left. left };

    ghost at_most_last = { λ t. t.counted };

    fn made(&self) -> Entries {
        self.entries
    }

    fn look(&mut self) -> Result<(), Device> {
        match expect_free(self.files, self.name) {
            Ok(()) => Ok(()),
            Err(reason) => Err(self.fail(reason)),
        }
    }

    fn make_part(&mut self) -> Result<WriteSink<Watched<File>>, Device> {
        // (it is synced at the end: what can't even be opened is found before anything is written)
        if let Err(reason) = open_folder(self.files, self.name) {
            return Err(self.fail_folder(reason));
        }
        match make_file(self.files, &self.part) {
            Ok(file) => {
                self.entries = Entries {
                    part: Entry::Made,
                    name: Entry::Absent,
                    settled: false,
                    unlinked: false,
                };
                Ok(WriteSink::new(Watched::new(file)))
            }
            Err(Reason::Exists) => Err(self.fail(Reason::PartExists)),
            Err(reason) => Err(self.fail(reason)),
        }
    }

    fn close_part(&mut self, out: WriteSink<Watched<File>>) {
        self.written(out);
    }

    fn settle_part(&mut self, out: WriteSink<Watched<File>>) -> Result<(), Device> {
        match self.written(out).sync_all() {
            Ok(()) => {
                self.entries.settled = true;
                Ok(())
            }
            Err(error) => Err(self.fail(reason_of(error.kind()))),
        }
    }

    fn link(&mut self) -> Linked {
        match link_file(self.files, &self.part, self.name) {
            Ok(true) => {
                self.entries.name = Entry::Made;
                self.entries.unlinked = false;
                Linked::Done
            }
            Ok(false) => {
                self.entries.unlinked = true;
                Linked::Refused
            }
            Err(reason) => {
                self.fail(reason);
                Linked::Failed
            }
        }
    }

    fn claim(&mut self) -> Result<(), Device> {
        match make_file(self.files, self.name) {
            Ok(_file) => {
                self.entries.name = Entry::Made;
                Ok(())
            }
            Err(reason) => Err(self.fail(reason)),
        }
    }

    fn rename(&mut self) -> Result<(), Device> {
        match rename_file(self.files, &self.part, self.name) {
            Ok(()) => {
                self.entries.part = Entry::Absent;
                Ok(())
            }
            Err(reason) => Err(self.fail(reason)),
        }
    }

    fn remove_part(&mut self) -> Result<(), Device> {
        match remove_file(self.files, &self.part) {
            Ok(()) => {
                self.entries.part = Entry::Absent;
                Ok(())
            }
            Err(_) => {
                self.entries.part = Entry::Stuck;
                Err(self.fail(Reason::PartStays))
            }
        }
    }

    fn remove_name(&mut self) -> Result<(), Device> {
        match remove_file(self.files, self.name) {
            Ok(()) => {
                self.entries.name = Entry::Absent;
                Ok(())
            }
            Err(reason) => {
                self.entries.name = Entry::Stuck;
                Err(self.fail(reason))
            }
        }
    }

    fn settle_folder(&mut self) -> Result<(), Device> {
        match sync_folder(self.files, self.name) {
            Ok(()) => Ok(()),
            Err(reason) => Err(self.fail_folder(reason)),
        }
    }
}
