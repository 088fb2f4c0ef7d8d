//! Files in stores that fail.

ghost use Rattle.std.specs.Prelude.{IfSome};
ghost use Rattle.ncc_values.specs.Failures.{Counts};
ghost use Rattle.ncc_store.specs.Fuse.{fuse_failures};
ghost use Rattle.ncc_store.specs.Memory.{memory_failures};
ghost use Rattle.ncc_check.specs.Files.{store_of};

use super::helpers::fetched;
use ncc_check::{NcFile, Refusal, Report, check, open};
use ncc_store::{Device, FuseStore, MemStore};
use std::alloc::{AllocError, Global};
use std::process::Abort;
use std::test::*;
use test_files::*;

/// The titled file with a title of 140,000 letters: its header is read in three pieces.
fn long_title(alloc: Global) -> Result<Vec<u8>, AllocError> {
    let mut words = TITLED;
    words[10] = 140_000;
    let mut bytes = bytes_of(alloc, &words)?;
    bytes.truncate(44);
    bytes.resize(140_044, b'a')?;
    bytes.resize(140_052, 0)?;
    Ok(bytes)
}

/// These bytes in a store that passes so many calls.
fn fuse_over(alloc: Global, bytes: &[u8], calls: u64) -> Result<FuseStore<MemStore>, AllocError> {
    Ok(FuseStore::new(MemStore::new(bytes.to_vec(alloc)?), calls))
}

/// What `check` answers where so many calls pass, with the bytes of the store afterwards.
fn checked_after(
    alloc: Global,
    bytes: &[u8],
    calls: u64,
) -> Result<(Result<Report, Refusal>, Vec<u8>), AllocError> {
    let mut store = fuse_over(alloc, bytes, calls)?;
    let answer = check(alloc, &mut store, LIMIT);
    Ok((answer, store.into_inner().into_bytes()))
}

/// Why `open` doesn't open where so many calls pass, with the bytes of the store that it gives back.
fn opened_after(
    alloc: Global,
    bytes: &[u8],
    calls: u64,
) -> Result<(Option<Refusal>, Vec<u8>), AllocError> {
    let store = fuse_over(alloc, bytes, calls)?;
    let (refusal, store) = match open(alloc, store, LIMIT) {
        Ok(file) => (None, file.into_store()),
        Err((store, refusal)) => (Some(refusal), store),
    };
    Ok((refusal, store.into_inner().into_bytes()))
}

/// Both answer that the device failed wherever fewer calls pass than they need, and the bytes stay.
fn needs_calls<R: Abort + AllocGlobal>(rt: &R, bytes: &[u8], calls: u64) -> Result<(), AllocError> {
    for passed in 0..=calls {
        let (answer, held) = checked_after(rt.alloc(), bytes, passed)?;
        let (refusal, given) = opened_after(rt.alloc(), bytes, passed)?;
        let failed = if passed < calls {
            Some(Refusal::Device)
        } else {
            None
        };
        assert!(rt; answer.err() == failed, "after {passed}");
        assert!(rt; refusal == failed, "after {passed}");
        assert!(rt; held.as_slice() == bytes);
        assert!(rt; given.as_slice() == bytes);
    }
    Ok(())
}

#[test]
fn stores_that_fail(rt: HostRuntime) -> Result<(), Fail> {
    // The length, and one piece.
    needs_calls(&rt, &bytes_of(rt.alloc(), &FIXED)?, 2)?;
    // The length, and three pieces.
    needs_calls(&rt, &long_title(rt.alloc())?, 4)?;
    Ok(())
}

/// Fetches the first byte, where there is one. The count of failures rises exactly where that fails.
fn first_byte(file: &mut NcFile<FuseStore<MemStore>>) -> Option<Result<u8, Device>>
    ensures { IfSome result (λ answer. Counts (fuse_failures memory_failures (store_of file.old))
        (fuse_failures memory_failures (store_of file.new)) answer) }
{
    if file.placed().file_length() == 0 {
        return None;
    }
    let mut out = [0];
    match file.fetch(0, &mut out) {
        Ok(()) => Some(Ok(out[0])),
        Err(failed) => Some(Err(failed)),
    }
}

#[test]
fn fetch_over_a_spent_fuse(rt: HostRuntime) -> Result<(), Fail> {
    let bytes = bytes_of(rt.alloc(), &FIXED)?;
    let store = fuse_over(rt.alloc(), &bytes, 4)?;
    let mut file = open(rt.alloc(), store, LIMIT).ok().expect(&rt, "it passes");
    assert!(rt; first_byte(&mut file) == Some(Ok(0x43)));
    assert!(rt; fetched(rt.alloc(), &mut file)? == bytes);
    for _ in 0..3 {
        assert!(rt; first_byte(&mut file) == Some(Err(Device)));
        assert!(rt; fetched(rt.alloc(), &mut file) == Err(Refusal::Device));
        assert!(rt; file.records() == 0);
    }
    assert!(rt; file.into_store().into_inner().into_bytes() == bytes);
    Ok(())
}
