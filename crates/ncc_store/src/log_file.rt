//! A file that tells what a stop may leave, and forgets what it couldn't sync.

ghost use Rattle.std.specs.Prelude.{◌≡◌, ◌<◌, ◌≤◌, true, ℕ, List, length, take};
ghost use Rattle.ncc_values.specs.Failures.{last_count};
ghost use Rattle.ncc_store.specs.Store.{Unsynced};

use crate::device::end;
use crate::log::LogStore;
use crate::store::Store;
use crate::system_file::{SystemFile, WHOLE};
use ncc_values::{Device, device_failure};
use std::io;
use std::io::ErrorKind;

/// A call that failed, as the system tells it.
fn io_error(_device: Device) -> io::Error {
    ErrorKind::Other.into()
}

/// A file over a log. It passes so many calls, and takes of a long piece so many bytes a call. After a call that
/// failed it answers `Ok` to each `settle` and syncs nothing, as systems do that forget what they couldn't write.
#[derive(Drop)]
pub struct LogFile {
    log: LogStore,
    most: usize,
    calls: u64,
    sound: bool,
    failures: u64,
    ghost counted: { failures ≤ last_count },
}

impl LogFile {
    ghost use Rattle.ncc_store.specs.LogFile.{log_of, log_sound};

    /// Passes `calls` writes and settles.
    pub fn new(log: LogStore, most: usize, calls: u64) -> LogFile
        ensures log { log_of result ≡ log }
        ensures sound { log_sound result ≡ true }
    {
        LogFile {
            log,
            most,
            calls,
            sound: true,
            failures: 0,
        }
    }

    /// The log below.
    pub fn into_log(self) -> LogStore
        ensures { result ≡ log_of self }
    {
        let LogFile {
            log,
            most: _,
            calls: _,
            sound: _,
            failures: _,
        } = self;
        log
    }

    /// What a call takes of a piece.
    fn front_of<'a>(&self, piece: &'a [u8]) -> &'a [u8]
        ensures front { result.now ≡ take (length result.now) piece.now }
        ensures within { length result.now ≤ length piece.now }
        ensures some { 0 < length piece.now → 0 < length result.now }
        ensures short { length piece.now ≤ 8 → result.now ≡ piece.now }
        ensures torn { (place : ℕ) (d c : List ℕ) → Unsynced place result.now d c → Unsynced place piece.now d c }
    {
        if piece.len() <= WHOLE {
            return piece;
        }
        &piece[..piece.len().min(self.most.max(1))]
    }
}

impl SystemFile for LogFile {
    ghost use Rattle.ncc_store.specs.LogFile.{log_of, log_sound};
    ghost use Rattle.ncc_store.specs.Log.{log_bytes, log_calls, log_replaced, log_images, log_moment, log_images_since};
    ghost use Rattle.ncc_values.specs.BigEndian.{bytes-by_index};
    ghost use Rattle.ncc_store.specs.LogLaws.{images_stand, back_now, back_only};
    ghost use Rattle.std.specs.Prelude.{◌-◌, reverse};

    ghost tells_bytes = { true };

    ghost tells_images = { true };

    ghost bytes = { λ f. log_bytes (log_of f) };

    ghost images = { λ f. log_images (log_of f) };

    ghost moment = { λ f. log_moment (log_of f) };

    ghost images_since = { λ f. log_images_since (log_of f) };

    ghost sound = { log_sound };

    ghost tells_failures = { true };

    ghost failed = { λ f. f.failures };

    ghost calls = { λ f. 0 };

    ghost are_bytes = { λ f told. bytes-by_index _ f.log.bytes_in };

    ghost stands = { λ f told. images_stand (reverse (log_calls (log_of f))) (reverse (log_replaced (log_of f)))
        (log_bytes (log_of f)) };

    ghost counts_now = { λ f t c le now. back_now (log_moment (log_of f) - t) (reverse (log_calls (log_of f)))
        (reverse (log_replaced (log_of f))) (log_bytes (log_of f)) c now };

    ghost only_now = { λ f c left. back_only (log_moment (log_of f)) (reverse (log_calls (log_of f)))
        (reverse (log_replaced (log_of f))) (log_bytes (log_of f)) c left };

    fn size(&mut self) -> io::Result<u64> {
        match self.log.len() {
            Ok(size) => Ok(size),
            Err(_) => Err(io_error(device_failure(&mut self.failures))),
        }
    }

    fn fill(&mut self, place: u64, out: &mut [u8]) -> io::Result<()> {
        let size = self.size()?;
        if place > size || out.len() as u64 > size - place {
            return Err(io_error(device_failure(&mut self.failures)));
        }
        match self.log.read_at(place, out) {
            Ok(()) => Ok(()),
            Err(_) => Err(io_error(device_failure(&mut self.failures))),
        }
    }

    fn write_some(&mut self, place: u64, piece: &[u8]) -> io::Result<usize> {
        if self.calls == 0 {
            return Err(io_error(end(&mut self.sound, &mut self.failures)));
        }
        self.calls -= 1;
        let front = self.front_of(piece);
        match self.log.write_at(place, front) {
            Ok(()) => Ok(front.len()),
            Err(_) => Err(io_error(end(&mut self.sound, &mut self.failures))),
        }
    }

    fn settle(&mut self) -> io::Result<()> {
        if !self.sound {
            return Ok(());
        }
        if self.calls == 0 {
            return Err(io_error(end(&mut self.sound, &mut self.failures)));
        }
        self.calls -= 1;
        match self.log.sync() {
            Ok(()) => Ok(()),
            Err(_) => Err(io_error(end(&mut self.sound, &mut self.failures))),
        }
    }
}
