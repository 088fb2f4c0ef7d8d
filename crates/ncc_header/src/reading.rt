//! Reading a header from pieces.

ghost use Rattle.std.specs.Prelude.{◌≤◌, ◌<◌, length};
ghost use Rattle.ncc_header.specs.Left.{first_at, part_of};
ghost use Rattle.ncc_header.specs.Steps.{next_size, held_length};

use crate::fault::{Fault, FaultKind, HeaderError};
use crate::least::rest;
use crate::partial::{Next, Partial};
use crate::step::size;
use arrayvec::ArrayVec;
use ncc_schema::{Header, Mark, Schema};
use ncc_values::Seq;
use std::alloc::Global;

/// How far a header was read: `at` is the offset of the next field in bytes.
#[derive(Debug, Drop)]
pub struct Reading {
    pub limit: u64,
    pub at: u64,
    pub next: Next,
    pub partial: Partial,
    /// The bytes of the next field that have come, after those that stand where they stay.
    pub held: ArrayVec<u8, 8>,
    /// The marks of the fields so far.
    pub marks: Vec<Mark>,
    ghost within: { at ≤ limit },
    ghost after: { first_at next ≤ at },
    ghost still_short: { held_length next partial held.items ≤ next_size next partial },
    ghost part: { length held.items < part_of next partial },
}

impl Reading {
    ghost use Rattle.std.specs.Prelude.{◌≡◌, ◌≢◌, ℕ, List, [], IfOk, IfErr};
    ghost use Rattle.ncc_header.specs.Answers.{Answers};
    ghost use Rattle.ncc_header.specs.Least.{rest_of, expects_of};
    ghost use Rattle.ncc_header.specs.Steps.{size_of};
    ghost use Rattle.ncc_header.specs.Reading.{next_of, held_of};
    ghost use Rattle.ncc_header.specs.State.{HasTaken, cut_at, lacks_of};

    /// A reading of a header of at most `limit` bytes, of which none has come.
    pub fn new(alloc: Global, limit: u64) -> Reading
        ensures took { HasTaken result [] }
        ensures limit { result.limit ≡ limit }
    {
        Reading {
            limit,
            at: 0,
            next: Next::Magic,
            partial: Partial::new(alloc),
            held: ArrayVec::new(),
            marks: Vec::new(alloc),
        }
    }

    /// The size of the next field in bytes; none where no field is left.
    pub fn size(&self) -> Option<u128>
        ensures { result ≡ size_of (next_of self.now) }
    {
        size(self.next, &self.partial)
    }

    /// How many bytes of the next field have come.
    pub fn held_len(&self) -> u128
        ensures { result ≡ length (held_of self.now) }
    {
        let held = self.held.len() as u128;
        match self.next {
            Next::NameText(_, _) => self.partial.name.len() as u128 + held,
            Next::AttrValues(_, _) => {
                let values = &self.partial.body.values;
                values.len() as u128 * values.xtype().size() as u128 + held
            }
            _ => held,
        }
    }

    /// How many bytes the next field lacks, where it ends within the limit.
    pub fn lacks(&self) -> u64
        ensures { result
            ≡ lacks_of (size_of (next_of self.now)) self.now.limit self.now.at (length (held_of self.now)) }
    {
        let room = (self.limit - self.at) as u128;
        match self.size() {
            Some(size) if size <= room => (size - self.held_len()) as u64,
            _ => 0,
        }
    }

    /// How many bytes are surely still to come, where the next field ends within the limit.
    pub fn expects(&self) -> u64
        ensures { result ≡ expects_of (size_of (next_of self.now)) (rest_of self.now.next self.now.partial.lists)
            self.now.limit self.now.at (length (held_of self.now)) }
    {
        let room = (self.limit - self.at) as u128;
        match self.size() {
            Some(size) if size <= room => {
                let least = size + rest(self.next, &self.partial.lists);
                (least.min(room) - self.held_len()) as u64
            }
            _ => 0,
        }
    }

    /// Why an input is refused that ends at the next field, of this size in bytes.
    fn fault_at_end(&self, size: u128) -> Fault
        ensures { result ≡ cut_at self.now.limit self.now.at size }
    {
        let kind = if size > (self.limit - self.at) as u128 {
            FaultKind::HeaderTooLong
        } else {
            FaultKind::EndsEarly
        };
        Fault {
            kind,
            offset: self.at,
        }
    }

    /// The header, where nothing comes after what was read.
    pub fn finish(self) -> Result<Header, HeaderError>
        ensures answers { (taken : List ℕ) → HasTaken self taken → Answers taken self.limit result }
        ensures whole { (taken : List ℕ) → HasTaken self taken → IfOk result (λ h. h.length ≡ length taken) }
        ensures memory { IfErr result (λ e. e ≢ HeaderError.Memory) }
    {
        if let Some(size) = self.size() {
            return Err(HeaderError::Fault(self.fault_at_end(size)));
        }
        let partial = self.partial;
        let lists = partial.lists;
        let (parts, vars) = (lists.parts, lists.vars);
        let schema = Schema {
            version: parts.version,
            count: parts.count,
            dims: Seq::from_vec(parts.dims),
            gatts: Seq::from_vec(parts.gatts),
            vars: Seq::from_vec(vars.vars),
        };
        Ok(Header {
            schema,
            places: Seq::from_vec(vars.places),
            length: self.at,
            marks: Seq::from_vec(self.marks),
        })
    }
}
