//! A store that fails once, and would pass the calls after.

ghost use Rattle.std.specs.Prelude.{◌≤◌, [], false};
ghost use Rattle.ncc_values.specs.Failures.{last_count, Counts};

use crate::bytes::with_piece;
use crate::cases::*;
use crate::files::file_of;
use crate::helpers::*;
use ncc_check::{AppendError, NcFile, open};
use ncc_store::{Device, Store};
use ncc_values::count_failure;
use std::alloc::Global;
use std::process::Abort;
use std::test::*;
use test_files::LIMIT;

/// Bytes in memory. One call alone fails, and does nothing. It tells nothing.
#[derive(Drop)]
struct FailsOnce {
    alloc: Global,
    bytes: Vec<u8>,
    /// How many calls there were.
    calls: u64,
    fails_at: u64,
    failures: u64,
    ghost counted: { failures ≤ last_count },
}

impl FailsOnce {
    fn passes(&mut self) -> Result<(), Device>
        ensures { Counts self.old.failures self.new.failures result }
    {
        let call = self.calls;
        self.calls = call.saturating_add(1);
        if call == self.fails_at {
            return self.fails();
        }
        Ok(())
    }

    fn fails(&mut self) -> Result<(), Device>
        ensures { Counts self.old.failures self.new.failures result }
    {
        count_failure(&mut self.failures);
        Err(Device)
    }
}

impl Store for FailsOnce {
    ghost use Rattle.ncc_store.specs.StoreLaws.{untold};

    ghost tells_bytes = { false };

    ghost tells_images = { false };

    ghost bytes = { λ s. [] };

    ghost images = { λ s c. ⊥ };

    ghost moment = { λ s. 0 };

    ghost images_since = { λ s t c. ⊥ };

    ghost failures = { λ s. s.failures };

    ghost calls = { λ s. 0 };

    ghost reach = { λ s. 0 };

    ghost are_bytes = { λ s told. untold told };

    ghost stands = { λ s told. untold told };

    ghost counts_now = { λ s t c le now. now };

    ghost only_now = { λ s c left. left };

    ghost at_most_last = { λ s. s.counted };

    fn len(&mut self) -> Result<u64, Device> {
        self.passes()?;
        Ok(self.bytes.len() as u64)
    }

    fn read_at(&mut self, place: u64, out: &mut [u8]) -> Result<(), Device> {
        self.passes()?;
        let place = place as usize;
        if place > self.bytes.len() || out.len() > self.bytes.len() - place {
            return self.fails();
        }
        out.copy_from_slice(&self.bytes[place..place + out.len()]);
        Ok(())
    }

    fn write_at(&mut self, place: u64, piece: &[u8]) -> Result<(), Device> {
        self.passes()?;
        match with_piece(self.alloc, self.bytes.as_slice(), place as usize, piece) {
            Ok(bytes) => {
                self.bytes = bytes;
                Ok(())
            }
            Err(_) => self.fails(),
        }
    }

    fn sync(&mut self) -> Result<(), Device> {
        self.passes()
    }
}

/// How many calls a file takes to be opened: the length, and the header in one piece.
const TO_OPEN: u64 = 2;

/// The file over a store that fails at this call of an append.
fn opened(alloc: Global, case: &Case, fails_at: u64) -> Option<NcFile<FailsOnce>> {
    let store = FailsOnce {
        alloc,
        bytes: file_of(alloc, &case.file).ok()?,
        calls: 0,
        fails_at: fails_at.saturating_add(TO_OPEN),
        failures: 0,
    };
    open(alloc, store, LIMIT).ok()
}

/// The records as the open file gives them: its bytes after the header, up to this end.
fn records_of(alloc: Global, file: &mut NcFile<FailsOnce>, end: u64) -> Option<Vec<u8>> {
    let start = file.placed().header_length();
    let end = end.min(file.placed().file_length());
    if end < start {
        return None;
    }
    let mut bytes = vec![in alloc; 0; (end - start) as usize].ok()?;
    file.fetch(start, &mut bytes).ok()?;
    Some(bytes)
}

/// Whether the file gives the old records.
fn has_old_records(alloc: Global, case: &Case, file: &mut NcFile<FailsOnce>) -> Option<bool> {
    let records = records_of(alloc, file, case.end as u64)?;
    let mut old = file_of(alloc, &case.file).ok()?;
    old.truncate(case.end);
    Some(file.records() == case.records && old.ends_with(records.as_slice()))
}

/// Whether the file answers Reopen once this call failed, and gives the old records. A store that failed isn't called
/// again.
fn is_read_on(alloc: Global, case: &Case, fails_at: u64) -> Option<bool> {
    let mut file = opened(alloc, case, fails_at)?;
    let first = answers(&mut file, case.image);
    let again = answers(&mut file, case.image);
    let reads = has_old_records(alloc, case, &mut file)?;
    let reopen = Err(AppendError::Reopen);
    // The last two calls are this one and the reading's.
    let calls = file.into_store().calls;
    Some(
        first == (Err(AppendError::Device), reopen)
            && again == (reopen, reopen)
            && reads
            && Some(calls) == fails_at.checked_add(TO_OPEN + 2),
    )
}

#[test]
fn reading_goes_on(rt: HostRuntime) {
    for case in &CASES {
        for fails_at in 0..case.calls {
            let so = is_read_on(rt.alloc(), case, fails_at);
            assert!(rt; so == Some(true), "{}, call {fails_at}", case.name);
        }
    }
}
