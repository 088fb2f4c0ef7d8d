//! A store in memory.

ghost use Rattle.std.specs.Prelude.{◌≡◌, ◌+◌, ◌<◌, ◌≤◌, ◌^◌, true, false, length, take, drop, Ok, IsOk, OnOk, OnErr};
ghost use Rattle.ncc_values.specs.Failures.{last_count, Counts};
ghost use Rattle.ncc_store.specs.Bytes.{AreBytes};
ghost use Rattle.ncc_store.specs.Store.{written, FrontWritten};

use crate::copying::copy_from;
use crate::putting::{are_bytes, put};
use crate::store::Store;
use ncc_values::{Device, device_failure};

/// Bytes in memory. It tells them, and no images. Only a write past the end can fail, where it
/// finds no memory, and then does nothing.
#[derive(Debug, Drop)]
pub struct MemStore {
    bytes: Vec<u8>,
    failures: u64,
    ghost counted: { failures ≤ last_count },
    ghost bytes_in: { AreBytes bytes.items },
}

impl MemStore {
    ghost use Rattle.ncc_store.specs.Memory.{memory_bytes, memory_failures};

    /// A store of these bytes, in their memory.
    pub fn new(bytes: Vec<u8>) -> MemStore
        ensures bytes { memory_bytes result ≡ bytes.items }
        ensures count { memory_failures result ≡ 0 }
    {
        are_bytes(bytes.as_slice());
        MemStore { bytes, failures: 0 }
    }

    /// How often it failed, at most 2^64 - 1.
    pub fn failures(&self) -> u64
        ensures { result ≡ memory_failures self.now }
    {
        self.failures
    }

    /// The bytes, in the memory that held them.
    pub fn into_bytes(self) -> Vec<u8>
        ensures { result.items ≡ memory_bytes self }
    {
        let MemStore { bytes, failures: _ } = self;
        bytes
    }
}

impl Store for MemStore {
    ghost use Rattle.ncc_store.specs.Memory.{memory_bytes, memory_failures};
    ghost use Rattle.ncc_store.specs.StoreLaws.{untold};
    ghost use Rattle.ncc_values.specs.BigEndian.{bytes-by_index};

    ghost tells_bytes = { true };

    ghost tells_images = { false };

    ghost bytes = { memory_bytes };

    ghost images = { λ m c. ⊥ };

    ghost moment = { λ m. 0 };

    ghost images_since = { λ m t c. ⊥ };

    ghost failures = { memory_failures };

    ghost calls = { λ m. 0 };

    ghost reach = { λ m. 0 };

    ghost are_bytes = { λ m told. bytes-by_index _ m.bytes_in };

    ghost stands = { λ m told. untold told };

    ghost counts_now = { λ m t c le now. now };

    ghost only_now = { λ m c left. left };

    ghost at_most_last = { λ m. m.counted };

    fn len(&mut self) -> Result<u64, Device>
        ensures told { result ≡ Ok (length (memory_bytes self.old)) }
        ensures same { self.new ≡ self.old }
    {
        Ok(self.bytes.len() as u64)
    }

    fn read_at(&mut self, place: u64, out: &mut [u8]) -> Result<(), Device>
        requires { place + length out.old ≤ length (memory_bytes self.old) }
        ensures ok { result ≡ Ok tt }
        ensures told { out.new ≡ take (length out.old) (drop place (memory_bytes self.old)) }
        ensures same { self.new ≡ self.old }
    {
        copy_from(&self.bytes, place as usize, out);
        Ok(())
    }

    fn write_at(&mut self, place: u64, piece: &[u8]) -> Result<(), Device>
        requires end { place + length piece.now < 2 ^ 63 }
        requires begin { place ≤ length (memory_bytes self.old) }
        ensures ok { OnOk result (memory_bytes self.new ≡ written (memory_bytes self.old) place piece.now) }
        ensures unchanged { OnErr result (memory_bytes self.new ≡ memory_bytes self.old) }
        ensures err { OnErr result (FrontWritten (memory_bytes self.old) place piece.now (memory_bytes self.new)) }
        ensures inside { place + length piece.now ≤ length (memory_bytes self.old) → IsOk result }
        ensures count { Counts (memory_failures self.old) (memory_failures self.new) result }
    {
        if put(&mut self.bytes, place as usize, piece).is_err() {
            return Err(device_failure(&mut self.failures));
        }
        Ok(())
    }

    fn sync(&mut self) -> Result<(), Device>
        ensures ok { result ≡ Ok tt }
        ensures same { self.new ≡ self.old }
    {
        Ok(())
    }
}
