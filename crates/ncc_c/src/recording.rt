//! Where one more record goes, by numbers.

ghost use Rattle.std.specs.Prelude.{◌≡◌, ◌≤◌, length, take};
ghost use Rattle.ncc_values.specs.Version.{count_width_of};
ghost use Rattle.ncc_check.specs.Appending.{TakesRecord, IsNext, count_field};
ghost use Rattle.ncc_c.specs.Recording.{IsRecorded, next_of, no_record};

use crate::outcome::{NO_ROOM, Outcome, PASSES, of_append, of_refusal, outcome_of};
use ncc_check::{NextRecord, place_of_next, put_count};
use ncc_front::{Found, FrontRefusal};
use ncc_values::Version;

/// The offset of the count field: after the magic bytes and the version.
const COUNT_AT: u64 = 4;

/// What `ncc_record` answers: the number of records with this one, the offset of its first byte, the length of the file
/// with it, and the offset and the width of the field that holds the number.
#[repr(C)]
#[derive(Clone, Copy, Debug, PartialEq, Eq)]
pub struct Recorded {
    pub outcome: Outcome,
    pub count: u64,
    pub place: u64,
    pub length: u64,
    pub count_at: u64,
    pub count_width: u64,
}

/// An answer with nothing but an outcome.
pub fn without_record(outcome: Outcome) -> Recorded
    ensures { result ≡ no_record outcome }
{
    Recorded {
        outcome,
        count: 0,
        place: 0,
        length: 0,
        count_at: 0,
        count_width: 0,
    }
}

/// The numbers of a record that is added.
fn numbers_of(version: Version, next: NextRecord) -> Recorded
    ensures { result ≡ next_of version next.count next.place next.length }
{
    Recorded {
        outcome: outcome_of(PASSES, 0, 0),
        count: next.count,
        place: next.place,
        length: next.length,
        count_at: COUNT_AT,
        count_width: version.count_width() as u64,
    }
}

/// Puts the bytes of the number of records with one more.
pub fn put_record(answer: &Result<Found, FrontRefusal>, out: &mut [u8]) -> Recorded
    ensures { IsRecorded answer.now out.new result }
{
    let found = match answer {
        Ok(found) => found,
        Err(refusal) => return without_record(of_refusal(*refusal)),
    };
    let version = found.header.schema.version;
    let next = match place_of_next(&found.header.schema, &found.placed) {
        Ok(next) => next,
        Err(error) => return without_record(of_append(error)),
    };
    let width = version.count_width();
    if out.len() < width {
        return without_record(outcome_of(NO_ROOM, 0, 0));
    }
    put_count(version, next.count, &mut out[..width]);
    numbers_of(version, next)
}
