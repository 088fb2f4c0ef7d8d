//! A store in memory that tells what a stop may leave.

ghost use Rattle.std.specs.Prelude.{◌≡◌, ◌+◌, ◌-◌, ◌<◌, ◌≤◌, ◌^◌, [], ◌∷◌, ◌++◌, true, List, ℕ, length, take, drop, reverse, Ok, OnOk, OnErr};
ghost use Rattle.ncc_values.specs.Failures.{last_count, Counts};
ghost use Rattle.ncc_store.specs.Bytes.{AreBytes};
ghost use Rattle.ncc_store.specs.Store.{written, FrontWritten, AfterWrite, Only, KeepsImages, Elapses, Unmoved};
ghost use Rattle.ncc_store.specs.declared.log.Call.TheVariants.{Sync};

use crate::copying::copy_from;
use crate::logging::{sync_logged, write_logged};
use crate::putting::are_bytes;
use crate::store::Store;
use ncc_values::{Device, device_failure};
use std::alloc::Global;

/// A call that succeeded.
#[derive(Drop)]
pub enum Call {
    /// A write: its place, and the bytes that were written there.
    Write(u64, Vec<u8>),
    Sync,
}

/// Bytes in memory, with the writes and syncs that succeeded and what each write replaced. It tells
/// its bytes and its images. A write or a sync that finds no memory fails and does nothing.
#[derive(Drop)]
pub struct LogStore {
    alloc: Global,
    bytes: Vec<u8>,
    calls: Vec<Call>,
    replaced: Vec<Vec<u8>>,
    failures: u64,
    ghost counted: { failures ≤ last_count },
    ghost bytes_in: { AreBytes bytes.items },
}

impl LogStore {
    ghost use Rattle.ncc_store.specs.Log.{log_bytes, log_calls, log_replaced, log_failures};

    /// A store of these bytes, in their memory. Nothing is pending.
    pub fn new(alloc: Global, bytes: Vec<u8>) -> LogStore
        ensures bytes { log_bytes result ≡ bytes.items }
        ensures calls { log_calls result ≡ [] }
        ensures count { log_failures result ≡ 0 }
        ensures settled { Only (⟦<LogStore as Store>⟧.bytes result) (⟦<LogStore as Store>⟧.images result) }
    {
        are_bytes(bytes.as_slice());
        LogStore {
            alloc,
            bytes,
            calls: Vec::new(alloc),
            replaced: Vec::new(alloc),
            failures: 0,
        }
    }

    /// The writes and syncs that succeeded, the oldest first.
    pub fn calls(&self) -> &[Call]
        ensures { result.now ≡ log_calls self.now }
    {
        &self.calls
    }

    /// What each write replaced, one list of bytes a write, the oldest first.
    pub fn replaced(&self) -> &[Vec<u8>]
        ensures { result.now ≡ log_replaced self.now }
    {
        &self.replaced
    }

    /// How often it failed, at most 2^64 - 1.
    pub fn failures(&self) -> u64
        ensures { result ≡ log_failures self.now }
    {
        self.failures
    }

    /// The bytes, in the memory that held them.
    pub fn into_bytes(self) -> Vec<u8>
        ensures { result.items ≡ log_bytes self }
    {
        let LogStore {
            alloc: _,
            bytes,
            calls: _,
            replaced: _,
            failures: _,
        } = self;
        bytes
    }
}

impl Store for LogStore {
    ghost use Rattle.ncc_store.specs.Log.{log_bytes, log_calls, log_replaced, log_failures, log_images, log_moment, log_images_since, LogsWrite, HoldsSame};
    ghost use Rattle.ncc_values.specs.BigEndian.{bytes-by_index};
    ghost use Rattle.ncc_store.specs.LogLaws.{images_stand, back_now, back_only};

    ghost tells_bytes = { true };

    ghost tells_images = { true };

    ghost bytes = { log_bytes };

    ghost images = { log_images };

    ghost moment = { log_moment };

    ghost images_since = { log_images_since };

    ghost failures = { log_failures };

    ghost calls = { λ s. 0 };

    ghost reach = { λ s. 0 };

    ghost are_bytes = { λ s told. bytes-by_index _ s.bytes_in };

    ghost stands = { λ s told. images_stand (reverse (log_calls s)) (reverse (log_replaced s)) (log_bytes s) };

    ghost counts_now = { λ s t c le now. back_now (log_moment s - t) (reverse (log_calls s))
        (reverse (log_replaced s)) (log_bytes s) c now };

    ghost only_now = { λ s c left. back_only (log_moment s) (reverse (log_calls s)) (reverse (log_replaced s))
        (log_bytes s) c left };

    ghost at_most_last = { λ s. s.counted };

    fn len(&mut self) -> Result<u64, Device>
        ensures told { result ≡ Ok (length (log_bytes self.old)) }
        ensures same { self.new ≡ self.old }
    {
        Ok(self.bytes.len() as u64)
    }

    fn read_at(&mut self, place: u64, out: &mut [u8]) -> Result<(), Device>
        requires { place + length out.old ≤ length (log_bytes self.old) }
        ensures ok { result ≡ Ok tt }
        ensures told { out.new ≡ take (length out.old) (drop place (log_bytes self.old)) }
        ensures same { self.new ≡ self.old }
    {
        copy_from(&self.bytes, place as usize, out);
        Ok(())
    }

    fn write_at(&mut self, place: u64, piece: &[u8]) -> Result<(), Device>
        requires end { place + length piece.now < 2 ^ 63 }
        requires begin { place ≤ length (log_bytes self.old) }
        ensures ok { OnOk result (log_bytes self.new ≡ written (log_bytes self.old) place piece.now) }
        ensures logged { OnOk result (LogsWrite place piece.now
            (take (length piece.now) (drop place (log_bytes self.old)))
            (log_calls self.old) (log_calls self.new) (log_replaced self.old) (log_replaced self.new)) }
        ensures unchanged { OnErr result (HoldsSame self.old self.new) }
        ensures err { OnErr result (FrontWritten (log_bytes self.old) place piece.now (log_bytes self.new)) }
        ensures images { Elapses log_images log_moment log_images_since self.old self.new
            (AfterWrite place piece.now (log_images self.old)) }
        ensures torn { OnOk result ((c : List ℕ) → AfterWrite place piece.now (log_images self.old) c
            → log_images self.new c) }
        ensures count { Counts (log_failures self.old) (log_failures self.new) result }
    {
        match write_logged(
            self.alloc,
            &mut self.bytes,
            &mut self.calls,
            &mut self.replaced,
            place,
            piece,
        ) {
            Ok(()) => Ok(()),
            Err(_) => Err(device_failure(&mut self.failures)),
        }
    }

    fn sync(&mut self) -> Result<(), Device>
        ensures logged { OnOk result (log_calls self.new ≡ log_calls self.old ++ Sync ∷ []) }
        ensures unchanged { OnErr result (HoldsSame self.old self.new) }
        ensures durable { OnOk result (Only (log_bytes self.new) (log_images self.new)) }
        ensures unmoved { Unmoved log_bytes log_images log_moment log_images_since self.old self.new }
        ensures kept { OnErr result (KeepsImages (log_images self.old) (log_images self.new)) }
        ensures count { Counts (log_failures self.old) (log_failures self.new) result }
    {
        match sync_logged(&mut self.calls) {
            Ok(()) => Ok(()),
            Err(_) => Err(device_failure(&mut self.failures)),
        }
    }
}
