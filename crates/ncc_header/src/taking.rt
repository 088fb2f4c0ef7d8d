//! Taking the bytes of a piece: field by field, and what is whole in it at once.

ghost use Rattle.std.specs.Prelude.{◌≡◌, ◌≢◌, ◌+◌, ◌-◌, ◌≤◌, ◌<◌, ◌^◌, ℕ, List, [], ◌++◌, length, take, Some, None, Err, OnOk, IfOk, IfErr, IfSome, IfNone};
ghost use Rattle.ncc_header.specs.Left.{left_of, come_of, idle_of};
ghost use Rattle.ncc_header.specs.Marks.{mark_of};
ghost use Rattle.ncc_header.specs.AtFront.{NeedsMemory};
ghost use Rattle.ncc_header.specs.Steps.{size_of, label_of, StepsTo, Steps};
ghost use Rattle.ncc_header.specs.Reading.{next_of, held_of, told_of, Takes, Went, FailsBehind, Waits, WaitsBehind, effort_of};

use crate::fault::{Fault, FaultKind, HeaderError, StepError};
use crate::gathering::gather;
use crate::judge::push_mark;
use crate::partial::{Named, Next, Partial};
use crate::reading::Reading;
use crate::rules::whole_attr::take_attr;
use crate::rules::whole_dim::take_dim;
use crate::rules::whole_var::{take_tail, take_var};
use crate::step::step;
use arrayvec::ArrayVec;
use ncc_schema::Mark;
use std::alloc::{AllocError, Global};
use std::mem;

/// The error of a field at this offset that is not taken.
fn error_at(at: u64, error: StepError) -> HeaderError
    ensures { result ≡ told_of at error }
{
    match error {
        StepError::Memory => HeaderError::Memory,
        StepError::Wrong(wrong) => HeaderError::Fault(Fault {
            kind: wrong.kind,
            offset: at.saturating_sub(wrong.back),
        }),
    }
}

/// Adds the next field's mark, and takes the step over it.
fn marked_step(
    alloc: Global,
    next: Next,
    partial: &mut Partial,
    marks: &mut Vec<Mark>,
    at: u64,
    bytes: &[u8],
) -> Result<Next, StepError>
    requires whole { size_of (left_of next partial.old) ≡ Some (length (come_of next partial.old ++ bytes.now)) }
    requires small { length (come_of next partial.old ++ bytes.now) < 2 ^ 64 }
    ensures steps { Steps next partial.old at (come_of next partial.old ++ bytes.now) result partial.new }
    ensures marks { OnOk result (marks.new.items
        ≡ marks.old.items ++ mark_of (label_of (left_of next partial.old)) at (come_of next partial.old ++ bytes.now)) }
    ensures idle { length (come_of next partial.old ++ bytes.now) ≡ 0
        → IfOk result (λ after. idle_of after < idle_of next) }
{
    push_mark(marks, next, at, bytes)?;
    step(alloc, next, partial, at, bytes)
}

/// Takes the next field, of this size in bytes: these are its bytes after those that stand where they
/// stay.
fn take_bytes(
    alloc: Global,
    reading: &mut Reading,
    size: u64,
    bytes: &[u8],
) -> Result<(), HeaderError>
    requires none { reading.old.held.items ≡ [] }
    requires size { size_of (next_of reading.old) ≡ Some size }
    requires last { length (come_of reading.old.next reading.old.partial ++ bytes.now) ≡ size }
    requires within { reading.old.at + size ≤ reading.old.limit }
    ensures takes { OnOk result (Takes reading.old reading.new bytes.now) }
    ensures less { OnOk result (effort_of reading.new < effort_of reading.old) }
    ensures fails { IfErr result (FailsBehind reading.old bytes.now) }
    ensures memory { result ≡ Err HeaderError.Memory → 12 ≤ reading.old.at }
{
    let at = reading.at;
    let (partial, marks) = (&mut reading.partial, &mut reading.marks);
    match marked_step(alloc, reading.next, partial, marks, at, bytes) {
        Ok(next) => {
            reading.next = next;
            reading.at = at + size;
            Ok(())
        }
        Err(error) => {
            // What a reading promises holds of any that begins, whatever was built.
            reading.next = Next::Magic;
            Err(error_at(at, error))
        }
    }
}

/// Takes bytes of the next field, and holds those that have no place to stay yet.
fn hold(reading: &mut Reading, front: &[u8]) -> Result<(), HeaderError>
    requires { (n : ℕ) × (size_of (next_of reading.old) ≡ Some n)
        × (length (held_of reading.old) + length front.now ≤ n) }
    ensures takes { OnOk result (Takes reading.old reading.new front.now) }
    ensures left { OnOk result (next_of reading.new ≡ next_of reading.old) }
    ensures next { OnOk result (reading.new.next ≡ reading.old.next) }
    ensures limit { OnOk result (reading.new.limit ≡ reading.old.limit) }
    ensures at { OnOk result (reading.new.at ≡ reading.old.at) }
    ensures held { OnOk result (held_of reading.new ≡ held_of reading.old ++ front.now) }
    ensures memory { IfErr result (λ e. (e ≡ HeaderError.Memory) × (12 ≤ reading.old.at)) }
{
    match gather(reading.next, &mut reading.partial, &mut reading.held, front) {
        Ok(()) => Ok(()),
        Err(_) => {
            reading.next = Next::Magic;
            reading.held.clear();
            Err(HeaderError::Memory)
        }
    }
}

/// Takes the last bytes of the next field, and so the field.
fn take_field(
    alloc: Global,
    reading: &mut Reading,
    size: u64,
    front: &[u8],
) -> Result<(), HeaderError>
    requires size { size_of (next_of reading.old) ≡ Some size }
    requires last { length (held_of reading.old) + length front.now ≡ size }
    requires within { reading.old.at + size ≤ reading.old.limit }
    ensures takes { OnOk result (Takes reading.old reading.new front.now) }
    ensures less { OnOk result (effort_of reading.new < effort_of reading.old) }
    ensures fails { IfErr result (FailsBehind reading.old front.now) }
    ensures memory { result ≡ Err HeaderError.Memory → 12 ≤ reading.old.at }
{
    if reading.held.is_empty() {
        return take_bytes(alloc, reading, size, front);
    }
    if let Err(error) = hold(reading, front) {
        return Err(error);
    }
    let held = mem::replace(&mut reading.held, ArrayVec::new());
    take_bytes(alloc, reading, size, held.as_slice())
}

/// The size of the next field in bytes, which ends within the limit; none where no field is left.
fn size_within(reading: &Reading) -> Result<Option<u64>, HeaderError>
    ensures some { IfOk result (λ o. IfSome o (λ n. (size_of (next_of reading.now) ≡ Some n)
        × (reading.now.at + n ≤ reading.now.limit))) }
    ensures none { IfOk result (λ o. IfNone o (size_of (next_of reading.now) ≡ None)) }
    ensures err { IfErr result (λ e. (e ≢ HeaderError.Memory)
        × ((rest : List ℕ) → FailsBehind reading.now rest e)) }
{
    let Some(size) = reading.size() else {
        return Ok(None);
    };
    if size > (reading.limit - reading.at) as u128 {
        return Err(HeaderError::Fault(Fault {
            kind: FaultKind::HeaderTooLong,
            offset: reading.at,
        }));
    }
    Ok(Some(size as u64))
}

/// Takes the next field, of this size in bytes, where the rest of a piece makes it whole, and tells how
/// many bytes of the rest are its.
fn take_whole(
    alloc: Global,
    reading: &mut Reading,
    size: u64,
    rest: &[u8],
) -> Result<Option<usize>, HeaderError>
    requires size { size_of (next_of reading.old) ≡ Some size }
    requires within { reading.old.at + size ≤ reading.old.limit }
    ensures some { IfOk result (λ o. IfSome o (λ n. Went reading.old reading.new rest.now n)) }
    ensures less { IfOk result (λ o. IfSome o (λ n. effort_of reading.new < effort_of reading.old)) }
    ensures none { IfOk result (λ o. IfNone o (reading.new ≡ reading.old)) }
    ensures waits { IfOk result (λ o. IfNone o (WaitsBehind reading.old (length rest.now))) }
    ensures fails { IfErr result (FailsBehind reading.old rest.now) }
    ensures memory { result ≡ Err HeaderError.Memory → 12 ≤ reading.old.at }
{
    let lacking = size - reading.held_len() as u64;
    if (rest.len() as u64) < lacking {
        return Ok(None);
    }
    let (front, _after) = rest.split_at(lacking as usize);
    match take_field(alloc, reading, size, front) {
        Ok(()) => Ok(Some(lacking as usize)),
        Err(error) => Err(error),
    }
}

/// Takes the next field, where there is one and the rest of a piece makes it whole, and tells how many
/// bytes of the rest are its.
fn take_next(
    alloc: Global,
    reading: &mut Reading,
    rest: &[u8],
) -> Result<Option<usize>, HeaderError>
    ensures some { IfOk result (λ o. IfSome o (λ n. Went reading.old reading.new rest.now n)) }
    ensures less { IfOk result (λ o. IfSome o (λ n. effort_of reading.new < effort_of reading.old)) }
    ensures none { IfOk result (λ o. IfNone o (reading.new ≡ reading.old)) }
    ensures waits { IfOk result (λ o. IfNone o (WaitsBehind reading.old (length rest.now))) }
    ensures fails { IfErr result (FailsBehind reading.old rest.now) }
    ensures memory { result ≡ Err HeaderError.Memory → 12 ≤ reading.old.at }
{
    match size_within(reading) {
        Ok(Some(size)) => take_whole(alloc, reading, size, rest),
        Ok(None) => Ok(None),
        Err(error) => Err(error),
    }
}

/// Takes what comes next at once, a dimension, an attribute or what stands before or after those of a variable, where
/// the rest of a piece, which is within the limit, begins with all of it and nothing is to mark or to refuse, and tells
/// how many bytes are its. Else nothing is taken.
#[inline]
fn take_item(alloc: Global, reading: &mut Reading, rest: &[u8]) -> Result<Option<usize>, AllocError>
    requires none { reading.old.held.items ≡ [] }
    requires within { reading.old.at + length rest.now ≤ reading.old.limit }
    ensures some { IfOk result (λ o. IfSome o (λ n. Went reading.old reading.new rest.now n)) }
    ensures less { IfOk result (λ o. IfSome o (λ n. effort_of reading.new < effort_of reading.old)) }
    ensures none { IfOk result (λ o. IfNone o (reading.new ≡ reading.old)) }
    ensures memory { IfErr result (λ _. 12 ≤ reading.old.at) }
    ensures needs { IfErr result (λ _. NeedsMemory reading.old.next reading.old.partial rest.now) }
{
    match reading.next {
        Next::NameLength(Named::Attr(owner)) => take_attr(alloc, reading, owner, rest),
        Next::NameLength(Named::Dim) => take_dim(alloc, reading, rest),
        Next::NameLength(Named::Var) => take_var(alloc, reading, rest),
        Next::VarType => take_tail(alloc, reading, rest),
        _ => Ok(None),
    }
}

/// The same of a piece that may end past the limit.
fn take_item_within(
    alloc: Global,
    reading: &mut Reading,
    rest: &[u8],
) -> Result<Option<usize>, AllocError>
    ensures some { IfOk result (λ o. IfSome o (λ n. Went reading.old reading.new rest.now n)) }
    ensures less { IfOk result (λ o. IfSome o (λ n. effort_of reading.new < effort_of reading.old)) }
    ensures none { IfOk result (λ o. IfNone o (reading.new ≡ reading.old)) }
    ensures memory { IfErr result (λ _. 12 ≤ reading.old.at) }
    ensures needs { IfErr result (λ _. NeedsMemory reading.old.next reading.old.partial
        (take (reading.old.limit - reading.old.at) rest.now)) }
{
    if !reading.held.is_empty() {
        return Ok(None);
    }
    let room = reading.limit - reading.at;
    let size = room.min(rest.len() as u64) as usize;
    let (within, _past) = rest.split_at(size);
    take_item(alloc, reading, within)
}

/// Takes an item at once, or else the next field, where the rest of a piece makes it whole, and
/// tells how many bytes of the rest are its.
fn take_some(
    alloc: Global,
    reading: &mut Reading,
    rest: &[u8],
) -> Result<Option<usize>, HeaderError>
    ensures some { IfOk result (λ o. IfSome o (λ n. Went reading.old reading.new rest.now n)) }
    ensures less { IfOk result (λ o. IfSome o (λ n. effort_of reading.new < effort_of reading.old)) }
    ensures none { IfOk result (λ o. IfNone o (reading.new ≡ reading.old)) }
    ensures waits { IfOk result (λ o. IfNone o (WaitsBehind reading.old (length rest.now))) }
    ensures fails { IfErr result (FailsBehind reading.old rest.now) }
    ensures memory { result ≡ Err HeaderError.Memory → 12 ≤ reading.old.at }
{
    match take_item_within(alloc, reading, rest) {
        Ok(Some(n)) => Ok(Some(n)),
        Ok(None) => take_next(alloc, reading, rest),
        Err(_) => Err(HeaderError::Memory),
    }
}

/// Takes the whole fields at the front of a piece, and tells how many bytes they are.
fn take_fields(alloc: Global, reading: &mut Reading, piece: &[u8]) -> Result<usize, HeaderError>
    ensures went { IfOk result (λ used. Went reading.old reading.new piece.now used) }
    ensures waits { IfOk result (λ used. WaitsBehind reading.new (length piece.now - used)) }
    ensures fails { IfErr result (FailsBehind reading.old piece.now) }
    ensures memory { result ≡ Err HeaderError.Memory
        → 12 ≤ reading.old.at + length (held_of reading.old) + length piece.now }
{
    let mut used = 0;
    loop {
        let (_taken, rest) = piece.split_at(used);
        match take_some(alloc, reading, rest) {
            Ok(Some(n)) => used += n,
            Ok(None) => return Ok(used),
            Err(error) => return Err(error),
        }
    }
}

/// Takes the bytes of a piece as far as the header goes, and tells how many.
pub fn take(alloc: Global, reading: &mut Reading, piece: &[u8]) -> Result<usize, HeaderError>
    ensures within { IfOk result (λ used. used ≤ length piece.now) }
    ensures takes { IfOk result (λ used. Takes reading.old reading.new (take used piece.now)) }
    ensures waits { IfOk result (λ _. Waits reading.new) }
    ensures all { IfOk result (λ used. (n : ℕ) → size_of (next_of reading.new) ≡ Some n
        → used ≡ length piece.now) }
    ensures fails { IfErr result (FailsBehind reading.old piece.now) }
    ensures memory { result ≡ Err HeaderError.Memory
        → 12 ≤ reading.old.at + length (held_of reading.old) + length piece.now }
{
    let used = match take_fields(alloc, reading, piece) {
        Ok(used) => used,
        Err(error) => return Err(error),
    };
    if reading.size().is_none() {
        return Ok(used);
    }
    let (_taken, rest) = piece.split_at(used);
    match hold(reading, rest) {
        Ok(()) => Ok(piece.len()),
        Err(error) => Err(error),
    }
}
