//! Datasets that go into a file in memory, and are read back.

use crate::mixes::*;
use crate::plans::*;
use ncc_values::Version;
use ncc_write::{Built, TripFault, WriteFault, round_trip};
use std::alloc::Global;
use std::process::Abort;
use std::test::*;

/// A limit that no header here reaches.
const LIMIT: u64 = 65_536;

/// How many bytes the values of a mix have.
fn data_length(mix: Mix) -> usize {
    let mut length = 0_usize;
    for (var, xtype) in TYPES.iter().enumerate().take(mix.variables()) {
        length = length.wrapping_add(elements(mix.dims(var)).wrapping_mul(xtype.size()));
    }
    length
}

/// What comes of so many bytes of values.
fn trip(
    alloc: Global,
    built: Result<Built, WriteFault>,
    count: usize,
    limit: u64,
) -> Result<(), TripFault> {
    let Ok(built) = built else {
        return Err(TripFault::Memory);
    };
    let data = bytes_from(alloc, 0, 0, count)?;
    round_trip(alloc, built, &data, limit)
}

/// All that is put is read, and a byte too few or too many is refused.
fn goes_round<R: Abort + AllocGlobal>(rt: &R, mix: Mix) {
    let alloc = rt.alloc();
    let count = data_length(mix);
    assert!(rt; trip(alloc, mixed(alloc, mix), count, LIMIT) == Ok(()));
    let short = trip(alloc, mixed(alloc, mix), count.wrapping_sub(1), LIMIT);
    assert!(rt; short == Err(TripFault::WrongLength));
    let long = trip(alloc, mixed(alloc, mix), count.wrapping_add(1), LIMIT);
    assert!(rt; long == Err(TripFault::WrongLength));
}

/// The mixes of a version.
fn all_go_round<R: Abort + AllocGlobal>(rt: &R, version: Version) {
    for kind in [Kind::Fixed, Kind::OneOfRecords, Kind::HalfOfRecords] {
        for turn in 0..5 {
            goes_round(
                rt,
                Mix {
                    version,
                    turn,
                    kind,
                },
            );
        }
    }
}

#[test]
fn cdf_1_goes_round(rt: HostRuntime) {
    all_go_round(&rt, Version::V1);
}

#[test]
fn cdf_2_goes_round(rt: HostRuntime) {
    all_go_round(&rt, Version::V2);
}

#[test]
fn cdf_5_goes_round(rt: HostRuntime) {
    all_go_round(&rt, Version::V5);
}

/// The header of SHORTS has 80 bytes.
#[test]
fn limit_is_the_longest_header(rt: HostRuntime) {
    let alloc = rt.alloc();
    assert!(&rt; trip(alloc, built(alloc, &SHORTS), 6, 80) == Ok(()));
    let long = trip(alloc, built(alloc, &SHORTS), 6, 79);
    assert!(&rt; long == Err(TripFault::HeaderTooLong));
}

#[test]
fn nothing_goes_round(rt: HostRuntime) {
    let alloc = rt.alloc();
    assert!(&rt; trip(alloc, built(alloc, &NOTHING), 0, LIMIT) == Ok(()));
}

/// Each refused allocation is told, and nothing else.
fn is_same_or_memory<R: Abort>(rt: &R, answer: Result<(), TripFault>) {
    assert!(rt; answer == Ok(()) || answer == Err(TripFault::Memory));
}

#[test]
fn round_trip_without_memory(rt: HostRuntime) {
    let alloc = rt.alloc();
    is_same_or_memory(&rt, trip(alloc, built(alloc, &SHORTS), 6, LIMIT));
    is_same_or_memory(&rt, trip(alloc, built(alloc, &RECORDS_OF_TWO), 6, LIMIT));
}
