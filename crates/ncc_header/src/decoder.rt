//! A decoder that takes a header in pieces.

ghost use Rattle.std.specs.Prelude.{◌≡◌, ◌≤◌, ◌<◌, ◌+◌, ◌++◌, ℕ, List, [], length, take, is_none, None, Ok, Err, IfOk, IfErr};
ghost use Rattle.ncc_header.specs.declared.fault.Fault.{Fault as TheFault};
ghost use Rattle.ncc_header.specs.declared.fault.HeaderError.{HeaderError as TheError};
ghost use Rattle.ncc_header.specs.declared.state.Fed.TheVariants as TheFed;
ghost use Rattle.ncc_header.specs.Answers.{Answers};
ghost use Rattle.ncc_header.specs.Fields.{header};
ghost use Rattle.ncc_header.specs.Grammar.{lacking};
ghost use Rattle.ncc_header.specs.Reading.{next_of};
ghost use Rattle.ncc_header.specs.Steps.{size_of};
ghost use Rattle.ncc_header.specs.State.{IsSettled, IsWhole, StopsForGood, limit_at, TookAt, HasFailedAt, front_taken, fed_of, Feeds, FedOrMemory};

use crate::fault::HeaderError;
use crate::reading::Reading;
use crate::state::{Fed, State};
use crate::taking::take;
use crate::unfinished::{Unfinished, where_next};
use ncc_schema::Header;
use std::alloc::Global;

/// Takes a header in pieces of any size.
#[derive(Debug, Drop)]
pub struct Decoder {
    alloc: Global,
    state: State,
}

/// What a reading says, once it has taken so many bytes of a piece.
fn fed_of(reading: &Reading, used: usize) -> Fed
    ensures { result ≡ fed_of (size_of (next_of reading.now)) used }
{
    match reading.size() {
        Some(_) => Fed::More,
        None => Fed::Done(used),
    }
}

/// Takes a piece.
fn advance(alloc: Global, state: &mut State, piece: &[u8]) -> Result<Fed, HeaderError>
    ensures limit { limit_at state.new ≡ limit_at state.old }
    ensures answers { (taken : List ℕ) → TookAt state.old taken
        → Feeds taken piece.now (limit_at state.old) result }
    ensures takes { (taken : List ℕ) → TookAt state.old taken
        → TookAt state.new (taken ++ front_taken result piece.now) }
    ensures failed { (e : TheError) → HasFailedAt state.old e → (result ≡ Err e) × HasFailedAt state.new e }
    ensures fails { IfErr result (HasFailedAt state.new) }
    ensures fresh { IfOk result (λ _. (e : TheError) → ¬ HasFailedAt state.new e) }
    ensures whole { (taken : List ℕ) → TookAt state.old taken → IsWhole taken (limit_at state.old)
        → ¬ HasFailedAt state.old HeaderError.Memory → result ≡ Ok (TheFed.Done 0) }
    // Eight bytes fit a decoder without memory.
    ensures few { (taken : List ℕ) → TookAt state.old taken → length taken + length piece.now ≤ 8
        → result ≡ Err HeaderError.Memory → HasFailedAt state.old HeaderError.Memory }
{
    let (limit, error) = match state {
        State::Failed(_, error) => return Err(*error),
        State::Reading(reading) => {
            if reading.size().is_none() {
                return Ok(Fed::Done(0));
            }
            let limit = reading.limit;
            match take(alloc, reading, piece) {
                Ok(used) => return Ok(fed_of(reading, used)),
                Err(error) => (limit, error),
            }
        }
    };
    // What was built is dropped here.
    *state = State::Failed(limit, error);
    Err(error)
}

impl Decoder {
    ghost use Rattle.ncc_header.specs.Awaited.{unfinished_at};
    ghost use Rattle.ncc_header.specs.Decoder.{Took, HasFailed, limit_of, expects_at};

    /// A decoder of headers of at most `limit` bytes.
    pub fn new(alloc: Global, limit: u64) -> Decoder
        ensures took { Took result [] }
        ensures limit { limit_of result ≡ limit }
        ensures fresh { (e : TheError) → ¬ HasFailed result e }
    {
        Decoder {
            alloc,
            state: State::Reading(Reading::new(alloc, limit)),
        }
    }

    /// Takes the next piece. Once the header is whole nothing more is taken, and a fault or want of
    /// memory is answered for good.
    pub fn feed(&mut self, piece: &[u8]) -> Result<Fed, HeaderError>
        ensures answers { (taken : List ℕ) → Took self.old taken → Feeds taken piece.now (limit_of self.old) result }
        ensures takes { (taken : List ℕ) → Took self.old taken → Took self.new (taken ++ front_taken result piece.now) }
        ensures limit { limit_of self.new ≡ limit_of self.old }

        // There is no other answer than the header or the fault, but for want of memory.
        ensures done { (taken : List ℕ) (used : ℕ) → Took self.old taken → used ≤ length piece.now
            → IsWhole (taken ++ take used piece.now) (limit_of self.old) → FedOrMemory result (Ok (TheFed.Done used)) }
        ensures fault { (taken : List ℕ) (f : TheFault) → Took self.old taken
            → StopsForGood (taken ++ piece.now) (limit_of self.old) f → FedOrMemory result (Err (HeaderError.Fault f)) }

        // An error is answered for good, and so is a whole header.
        ensures failed { (e : TheError) → HasFailed self.old e → (result ≡ Err e) × HasFailed self.new e }
        ensures fails { IfErr result (HasFailed self.new) }
        ensures fresh { IfOk result (λ _. (e : TheError) → ¬ HasFailed self.new e) }
        ensures whole { (taken : List ℕ) → Took self.old taken → IsWhole taken (limit_of self.old)
            → ¬ HasFailed self.old HeaderError.Memory → result ≡ Ok (TheFed.Done 0) }

        // Memory is never answered as long as all bytes are 8 at most.
        ensures few { (taken : List ℕ) → Took self.old taken → length taken + length piece.now ≤ 8
            → result ≡ Err HeaderError.Memory → HasFailed self.old HeaderError.Memory }
    {
        advance(self.alloc, &mut self.state, piece)
    }

    /// How many bytes the field in which the input ends early still lacks. It is 0 where the header is
    /// whole or has a fault that stays, and after want of memory.
    pub fn wants(&self) -> u64
        ensures lacks { (taken : List ℕ) → Took self.now taken → ¬ HasFailed self.now HeaderError.Memory
            → result ≡ lacking header (limit_of self.now) 0 taken }
        ensures settled { (taken : List ℕ) → Took self.now taken → ¬ HasFailed self.now HeaderError.Memory
            → result ≡ 0 → IsSettled taken (limit_of self.now) }
        ensures failed { (e : TheError) → HasFailed self.now e → result ≡ 0 }
    {
        match &self.state {
            State::Reading(reading) => reading.lacks(),
            State::Failed(_, _) => 0,
        }
    }

    /// How many bytes are surely still to come: no header has fewer of them after the pieces, none lies
    /// past the limit, and the next field lacks no more. It is 0 where the header is whole or has a fault
    /// that stays, and after want of memory.
    pub(crate) fn expects(&self) -> u64
        ensures exact { result ≡ expects_at self.now.state }
        ensures fewest { (taken more : List ℕ) → Took self.now taken → IsWhole (taken ++ more) (limit_of self.now)
            → result ≤ length more }
        ensures within { (taken : List ℕ) → Took self.now taken → 0 < result
            → length taken + result ≤ limit_of self.now }
        ensures more { (taken : List ℕ) → Took self.now taken → ¬ HasFailed self.now HeaderError.Memory
            → lacking header (limit_of self.now) 0 taken ≤ result }
        ensures settled { (taken : List ℕ) → Took self.now taken → ¬ HasFailed self.now HeaderError.Memory
            → result ≡ 0 → IsSettled taken (limit_of self.now) }
    {
        match &self.state {
            State::Reading(reading) => reading.expects(),
            State::Failed(_, _) => 0,
        }
    }

    /// The header, where the input ends after the pieces.
    pub fn finish(self) -> Result<Header, HeaderError>
        ensures answers { (taken : List ℕ) → Took self taken → Answers taken (limit_of self) result }
        ensures whole { (taken : List ℕ) → Took self taken → IfOk result (λ h. h.length ≡ length taken) }
        ensures failed { (e : TheError) → HasFailed self e → result ≡ Err e }
        ensures memory { result ≡ Err HeaderError.Memory → HasFailed self HeaderError.Memory }
    {
        match self.state {
            State::Reading(reading) => reading.finish(),
            State::Failed(_, error) => Err(error),
        }
    }

    /// Where in a header the next field is, and the names that are known there; none only where the header is whole
    /// or has a fault that stays, or after want of memory.
    pub fn unfinished(self) -> Option<Unfinished>
        ensures exact { result ≡ unfinished_at self.state }
        ensures settled { (taken : List ℕ) → Took self taken → ¬ HasFailed self HeaderError.Memory → result ≡ None
            → IsSettled taken (limit_of self) }
    {
        match self.state {
            State::Reading(reading) => where_next(reading.next, reading.partial),
            State::Failed(_, _) => None,
        }
    }
}
