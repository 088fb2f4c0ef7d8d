//! A store of any length that holds few bytes.

ghost use Rattle.std.specs.Prelude.{◌≡◌, ◌+◌, ◌≤◌, ◌↔◌, [], false, length, Ok, IsOk, IsErr, OnOk};
ghost use Rattle.ncc_values.specs.Failures.{last_count, Counts};
ghost use Rattle.ncc_store.specs.Zeros.{zero_past};

use crate::store::Store;
use ncc_values::{Device, device_failure};

/// Some bytes, and zeros from there to its length. A write and a sync fail. It tells nothing.
#[derive(Drop)]
pub struct LongStore {
    front: Vec<u8>,
    length: u64,
    failures: u64,
    ghost counted: { failures ≤ last_count },
}

impl LongStore {
    ghost use Rattle.ncc_store.specs.Long.{long_front, long_length, long_failures};

    /// A store of that many bytes, which begin with the front.
    pub fn new(front: Vec<u8>, size: u64) -> LongStore
        requires { length front.items ≤ size }
        ensures front { long_front result ≡ front.items }
        ensures length { long_length result ≡ size }
        ensures count { long_failures result ≡ 0 }
    {
        LongStore {
            front,
            length: size,
            failures: 0,
        }
    }

    /// How often it failed, at most 2^64 - 1.
    pub fn failures(&self) -> u64
        ensures { result ≡ long_failures self.now }
    {
        self.failures
    }

    /// Fails and counts it.
    fn refuse(&mut self) -> Result<(), Device>
        ensures err { IsErr result }
        ensures front { long_front self.new ≡ long_front self.old }
        ensures length { long_length self.new ≡ long_length self.old }
        ensures count { Counts (long_failures self.old) (long_failures self.new) result }
    {
        Err(device_failure(&mut self.failures))
    }
}

/// Fills `out` with the bytes of the front from `place` on, and then with zeros.
fn fill_from(front: &[u8], place: u64, out: &mut [u8])
    ensures { out.new ≡ zero_past front.now place (length out.old) }
{
    out.fill(0);
    if place < front.len() as u64 {
        let start = place as usize;
        let count = out.len().min(front.len() - start);
        out[..count].copy_from_slice(&front[start..start + count]);
    }
}

impl Store for LongStore {
    ghost use Rattle.ncc_store.specs.Long.{long_front, long_length, long_failures};
    ghost use Rattle.ncc_store.specs.StoreLaws.{untold};

    ghost tells_bytes = { false };

    ghost tells_images = { false };

    ghost bytes = { λ s. [] };

    ghost images = { λ s c. ⊥ };

    ghost moment = { λ s. 0 };

    ghost images_since = { λ s t c. ⊥ };

    ghost failures = { long_failures };

    ghost calls = { λ s. 0 };

    ghost reach = { λ s. 0 };

    ghost are_bytes = { λ s told. untold told };

    ghost stands = { λ s told. untold told };

    ghost counts_now = { λ s t c le now. now };

    ghost only_now = { λ s c left. left };

    ghost at_most_last = { λ s. s.counted };

    fn len(&mut self) -> Result<u64, Device>
        ensures length { result ≡ Ok (long_length self.old) }
        ensures same { self.new ≡ self.old }
    {
        Ok(self.length)
    }

    fn read_at(&mut self, place: u64, out: &mut [u8]) -> Result<(), Device>
        ensures inside { IsOk result ↔ (place + length out.old ≤ long_length self.old) }
        ensures filled { OnOk result (out.new ≡ zero_past (long_front self.old) place (length out.old)) }
        ensures front { long_front self.new ≡ long_front self.old }
        ensures length { long_length self.new ≡ long_length self.old }
        ensures count { Counts (long_failures self.old) (long_failures self.new) result }
    {
        if place > self.length || out.len() as u64 > self.length - place {
            return self.refuse();
        }
        fill_from(&self.front, place, out);
        Ok(())
    }

    fn write_at(&mut self, _place: u64, _piece: &[u8]) -> Result<(), Device>
        ensures refused { IsErr result }
        ensures front { long_front self.new ≡ long_front self.old }
        ensures length { long_length self.new ≡ long_length self.old }
        ensures count { Counts (long_failures self.old) (long_failures self.new) result }
    {
        self.refuse()
    }

    fn sync(&mut self) -> Result<(), Device>
        ensures refused { IsErr result }
        ensures front { long_front self.new ≡ long_front self.old }
        ensures length { long_length self.new ≡ long_length self.old }
        ensures count { Counts (long_failures self.old) (long_failures self.new) result }
    {
        self.refuse()
    }
}
