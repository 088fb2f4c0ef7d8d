//! Calls of a store in tables.

ghost use Rattle.std.specs.Prelude.{◌+◌, ◌≤◌, length, IsTrue, IfSome, MatchOption};

use ncc_store::{Device, Store};
use std::process::Abort;

/// A call of a store, and what it answers.
#[derive(Clone, Copy)]
pub enum Step {
    Len(Result<u64, Device>),
    /// A read from a place on, which gives these bytes, at most 8.
    Read(u64, &'static [u8]),
    /// A read of so many bytes, at most 8, which fails.
    FailedRead(u64, usize),
    Write(u64, &'static [u8], Result<(), Device>),
    Sync(Result<(), Device>),
}

/// Greater than the places and pieces of the tables.
const MOST: u64 = 1 << 62;

/// Are so many bytes from a place on inside the bytes that are told?
fn is_inside(told: Option<u64>, place: u64, count: usize) -> bool
    ensures { IsTrue result → IfSome told (λ size. place + count ≤ size) }
{
    match told {
        Some(size) => place <= size && count as u64 <= size - place,
        None => true,
    }
}

/// Whether a read gives these bytes and leaves what is after them.
fn reads<S: Store>(store: &mut S, told: Option<u64>, place: u64, wanted: &[u8]) -> bool
    requires { IsTrue S.tells_bytes → MatchOption told ⊥ (λ size. size ≤ length (S.bytes store.old)) }
{
    let count = wanted.len().min(8);
    if !is_inside(told, place, count) {
        return false;
    }
    let mut out = [9; 8];
    let answer = store.read_at(place, &mut out[..count]);
    answer == Ok(()) && out.starts_with(wanted) && out[count..].iter().all(|&byte| byte == 9)
}

/// Whether a read of so many bytes fails.
fn fails_to_read<S: Store>(store: &mut S, told: Option<u64>, place: u64, count: usize) -> bool
    requires { IsTrue S.tells_bytes → MatchOption told ⊥ (λ size. size ≤ length (S.bytes store.old)) }
{
    let count = count.min(8);
    let mut out = [9; 8];
    is_inside(told, place, count) && store.read_at(place, &mut out[..count]) == Err(Device)
}

/// Whether a write has this answer.
fn writes<S: Store>(
    store: &mut S,
    told: Option<u64>,
    place: u64,
    piece: &[u8],
    answer: Result<(), Device>,
) -> bool
    requires { IsTrue S.tells_bytes → MatchOption told ⊥ (λ size. size ≤ length (S.bytes store.old)) }
{
    is_inside(told, place, 0)
        && place < MOST
        && (piece.len() as u64) < MOST
        && store.write_at(place, piece) == answer
}

/// Whether the store answers the call so. A store that tells its bytes has at least as many as are told.
pub fn takes<S: Store>(store: &mut S, told: Option<u64>, step: Step) -> bool
    requires { IsTrue S.tells_bytes → MatchOption told ⊥ (λ size. size ≤ length (S.bytes store.old)) }
{
    match step {
        Step::Len(answer) => store.len() == answer,
        Step::Read(place, wanted) => reads(store, told, place, wanted),
        Step::FailedRead(place, count) => fails_to_read(store, told, place, count),
        Step::Write(place, piece, answer) => writes(store, told, place, piece, answer),
        Step::Sync(answer) => store.sync() == answer,
    }
}

/// A store that doesn't tell its bytes answers all calls so.
pub fn takes_all<S: Store>(rt: &impl Abort, store: &mut S, steps: &[Step])
    requires { IsTrue S.tells_bytes → ⊥ }
{
    for (number, step) in steps.iter().enumerate() {
        assert!(rt; takes(store, None, *step), "step {number}");
    }
}
