//! Where the fault of a header is, and what is there.

ghost use Rattle.std.specs.Prelude.{◌≡◌, ◌+◌, ◌≤◌, length, max, true, IfOk, IsTrue};
ghost use Rattle.ncc_values.specs.Failures.{Counts};
ghost use Rattle.ncc_store.specs.Reading.{ReadsOnly};
ghost use Rattle.ncc_header.specs.Answers.{Stops};
ghost use Rattle.ncc_check.specs.FromStore.{reads_for};
ghost use Rattle.ncc_explain.specs.Explaining.{SendErrorCounts};
ghost use Rattle.ncc_explain.specs.Sites.{IsSite, number_at};

use crate::front::front_of;
use ncc_header::laws::{header_is_begun, header_or_stop};
use ncc_header::{Fault, Unfinished};
use ncc_lines::SendError;
use ncc_parts::unfinished;
use ncc_store::{Device, Store, laws as store_laws};
use ncc_values::number;
use std::alloc::Global;

/// Where the fault of a header is, and what is there.
#[derive(Debug, Drop)]
pub struct Site {
    /// The part of the header that goes on at the fault's offset, and the names that are known there.
    pub place: Option<Unfinished>,
    /// The number in the field there, if it has at most 8 bytes, all of them in the file and within the limit.
    pub value: Option<u64>,
    /// How many bytes the file has.
    pub file_length: u64,
}

/// The number in the field of this size at this offset of a store, if it has 1 to 8 bytes, all of them before `end`.
fn number_at<S: Store>(
    store: &mut S,
    offset: u64,
    size: u64,
    end: u64,
) -> Result<Option<u64>, Device>
    requires { IsTrue S.tells_bytes → end ≤ length (S.bytes store.old) }
    ensures value { IsTrue S.tells_bytes → IfOk result (λ v. v ≡ number_at (S.bytes store.old) offset size end) }
    ensures store { ReadsOnly S.Store store.old store.new (λ a b. Counts a b result) true 1 end }
    ensures near { S.reach store.new ≤ max (S.reach store.old) (offset + 8) }
{
    if size == 0 || (size > 8 || end.saturating_sub(offset) < size) {
        return Ok(None);
    }
    let mut field = [0; 8];
    let bytes = &mut field[..size as usize];
    store.read_at(offset, bytes)?;
    Ok(Some(number(bytes)))
}

/// What is at the offset of a header's fault, of the file in a store: the front is read up to there, and the field.
pub fn site_of<S: Store>(
    alloc: Global,
    store: &mut S,
    limit: u64,
    fault: Fault,
) -> Result<Site, SendError>
    ensures site { IsTrue S.tells_bytes → Stops (S.bytes store.old) limit fault
        → IfOk result (IsSite (S.bytes store.old) limit fault) }
    ensures store { ReadsOnly S.Store store.old store.new (λ a b. SendErrorCounts a b result) true
        (2 + reads_for fault.offset) limit }
    ensures near { S.reach store.new ≤ max (S.reach store.old) (fault.offset + 8) }
{
    header_is_begun();
    header_or_stop();
    store_laws::unmoved_calls_join::<S>();
    let Ok(file_length) = store.len() else {
        return Err(SendError::Device);
    };
    let end = file_length.min(limit);
    let decoder = front_of(alloc, store, fault.offset.min(end))?;
    let Ok(value) = number_at(store, fault.offset, decoder.wants(), end) else {
        return Err(SendError::Device);
    };
    Ok(Site {
        place: unfinished(decoder),
        value,
        file_length,
    })
}
