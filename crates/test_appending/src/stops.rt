//! What a stop may leave of an append.

use crate::bytes::{ones, with_piece};
use crate::cases::*;
use crate::files::file_of;
use crate::helpers::*;
use crate::stops::Fate::{Done, LeftOut, Torn};
use ncc_check::open;
use ncc_store::{Call, LogStore};
use std::alloc::{AllocError, Global};
use std::process::Abort;
use std::test::*;
use test_files::LIMIT;

/// What becomes of a write that isn't synced.
#[derive(Clone, Copy)]
enum Fate {
    LeftOut,
    Done,
    /// Its range is all ff, unless it is a short one inside the bytes, which is done.
    Torn,
}

/// Of the first write that isn't synced, and of the next.
const FATES: [(Fate, Fate); 9] = [
    (LeftOut, LeftOut),
    (LeftOut, Done),
    (LeftOut, Torn),
    (Done, LeftOut),
    (Done, Done),
    (Done, Torn),
    (Torn, LeftOut),
    (Torn, Done),
    (Torn, Torn),
];

/// The bytes after a write of this fate.
fn after(
    alloc: Global,
    bytes: &[u8],
    place: usize,
    piece: &[u8],
    fate: Fate,
) -> Result<Vec<u8>, AllocError> {
    let short = piece.len() <= 8 && place.saturating_add(piece.len()) <= bytes.len();
    match fate {
        LeftOut => bytes.to_vec(alloc),
        Torn if !short => {
            let torn = ones(alloc, piece.len())?;
            with_piece(alloc, bytes, place, torn.as_slice())
        }
        _ => with_piece(alloc, bytes, place, piece),
    }
}

/// The number of calls up to the last sync.
fn synced(calls: &[Call]) -> usize {
    let mut synced = 0;
    for number in 0..calls.len() {
        if let Call::Sync = &calls[number] {
            synced = number + 1;
        }
    }
    synced
}

/// The fate of a call, where so many are synced.
fn fate_of(number: usize, synced: usize, fates: (Fate, Fate)) -> Fate {
    if number < synced {
        Done
    } else if number == synced {
        fates.0
    } else {
        fates.1
    }
}

/// What a stop after these calls leaves of the file.
fn left_by(
    alloc: Global,
    case: &Case,
    calls: &[Call],
    fates: (Fate, Fate),
) -> Result<Vec<u8>, AllocError> {
    let mut bytes = file_of(alloc, &case.file)?;
    let synced = synced(calls);
    for (number, call) in calls.iter().enumerate() {
        if let Call::Write(place, piece) = call {
            let fate = fate_of(number, synced, fates);
            bytes = after(
                alloc,
                bytes.as_slice(),
                *place as usize,
                piece.as_slice(),
                fate,
            )?;
        }
    }
    Ok(bytes)
}

/// The log of an append.
fn logged(alloc: Global, case: &Case) -> Option<LogStore> {
    let store = LogStore::new(alloc, file_of(alloc, &case.file).ok()?);
    let mut file = open(alloc, store, LIMIT).ok()?;
    match answers(&mut file, case.image) {
        (Ok(()), Ok(())) => Some(file.into_store()),
        _ => None,
    }
}

/// After each front of the calls, whatever becomes of the writes that aren't synced, the old records are there or the
/// new one too.
fn keep<R: Abort + AllocGlobal>(rt: &R, case: &Case, calls: &[Call]) -> Result<(), AllocError> {
    for length in 0..=calls.len() {
        let (front, _rest) = calls.split_at(length);
        for fates in FATES {
            let bytes = left_by(rt.alloc(), case, front, fates)?;
            let more = more_in(rt.alloc(), case, bytes.as_slice())?;
            assert!(rt; more.is_some(), "{} after {length} calls", case.name);
        }
    }
    Ok(())
}

/// After all of them the new record is there, and nothing is pending.
fn is_settled(alloc: Global, case: &Case, calls: &[Call]) -> Result<bool, AllocError> {
    let bytes = left_by(alloc, case, calls, (LeftOut, LeftOut))?;
    let more = more_in(alloc, case, bytes.as_slice())?;
    Ok(more == Some(1) && synced(calls) == calls.len())
}

#[test]
fn stops_at_any_moment(rt: HostRuntime) -> Result<(), Fail> {
    for case in &CASES {
        let store = logged(rt.alloc(), case).expect(&rt, case.name);
        let calls = store.calls();
        assert!(rt; calls.len() as u64 == case.calls);
        keep(&rt, case, calls)?;
        assert!(rt; is_settled(rt.alloc(), case, calls)?, "{}", case.name);
    }
    Ok(())
}
