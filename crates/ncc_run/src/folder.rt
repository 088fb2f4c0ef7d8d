//! Files of the system, one after the other, and what is told of those that fail.

ghost use Rattle.std.specs.Prelude.{◌≡◌, ◌≤◌, false, None, [], IfOk};
ghost use Rattle.ncc_store.specs.DiskFile.{is_writable};
ghost use Rattle.ncc_store.specs.File.{file_failures, file_of};
ghost use Rattle.ncc_values.specs.Failures.{last_count};

use crate::progress::ProgressLine;
use ncc_batch::Shelf;
use ncc_disk::{Reason, Trouble, open_to_read, reason_in, tell_trouble};
use ncc_engines::Answer;
use ncc_lines::Progress;
use ncc_status::finish;
use ncc_store::FileStore;
use ncc_values::count_failure;
use std::fs::File;
use std::io::Write;
use std::rt::{Clock, Files};

/// How much is told of a file that fails, on the error output.
#[derive(Clone, Copy)]
pub struct Telling {
    /// That it failed.
    pub failures: bool,
    /// And why.
    pub reasons: bool,
}

/// Files of the system.
#[derive(Drop)]
pub struct Folder<'a, R: Clock, E: Write> {
    files: &'a R,
    line: ProgressLine<'a, R, E>,
    telling: Telling,
    /// How many files were opened, of how many.
    opened: u64,
    all: u64,
    /// The number of a name that was cut: no file is opened for it.
    cut: Option<u64>,
    reason: Reason,
    failures: u64,
    ghost counted: { failures ≤ last_count },
}

impl<'a, R: Files<File = File> + Clock, E: Write> Folder<'a, R, E> {
    pub fn new(
        files: &'a R,
        line: ProgressLine<'a, R, E>,
        telling: Telling,
        all: u64,
        cut: Option<u64>,
    ) -> Folder<'a, R, E> {
        Folder {
            files,
            line,
            telling,
            opened: 0,
            all,
            cut,
            reason: Reason::Other,
            failures: 0,
        }
    }

    /// Takes the line of the progress away.
    pub fn end(&mut self) {
        self.line.end();
    }

    /// The next file, or why it isn't there.
    fn next(&mut self, path: &[u8]) -> Result<FileStore, Reason>
        ensures fresh { IfOk result (λ f. file_failures f ≡ 0) }
        ensures reads { IfOk result (λ f. is_writable (file_of f) ≡ false) }
        ensures count { self.new.failures ≡ self.old.failures }
    {
        let number = self.opened;
        self.opened = number.saturating_add(1);
        self.line.files(number, self.all);
        if self.cut == Some(number) {
            return Err(Reason::CutName);
        }
        open_to_read(self.files, path)
    }
}

impl<'a, R: Files<File = File> + Clock, E: Write> Shelf for Folder<'a, R, E> {
    type File = FileStore;

    ghost tells = { false };

    ghost file = { λ _ _. None };

    ghost left = { λ _. [] };

    ghost held = { λ _. [] };

    ghost failures = { λ s. s.failures };

    ghost at_most_last = { λ s. s.counted };

    fn open(&mut self, path: &[u8]) -> Option<FileStore> {
        match self.next(path) {
            Ok(file) => {
                self.reason = Reason::Other;
                Some(file)
            }
            Err(reason) => {
                self.reason = reason;
                count_failure(&mut self.failures);
                None
            }
        }
    }

    fn close(&mut self, opened: FileStore, failed: bool) {
        if failed {
            self.reason = reason_in(&opened);
            count_failure(&mut self.failures);
        }
    }

    fn tell(&mut self, path: &[u8], answer: Answer) {
        // (the answer follows, which may go to the same terminal)
        let err = self.line.other();
        let failed = answer == Answer::Device;
        if !failed && answer != Answer::Memory {
            return;
        }
        if self.telling.failures {
            let _ = err.write_all(path);
            let _ = err.write_all(b": ");
            finish(answer, err);
        }
        if self.telling.reasons && failed {
            let trouble = Trouble {
                name: path,
                reason: self.reason,
            };
            tell_trouble(trouble, err);
        }
    }
}
