//! The index of a header.

ghost use Rattle.std.specs.Prelude.{◌≡◌, ◌+◌, ◌<◌, ◌≤◌, ◌^◌, ◌⊎◌, ℕ, List, length, MatchBool};
ghost use Rattle.ncc_schema.specs.Schema.{Place};
ghost use Rattle.ncc_schema.specs.Header.{canon};
ghost use Rattle.ncc_layout.specs.Placed.{vars_of};
ghost use Rattle.ncc_header.specs.Answers.{Begins};
ghost use Rattle.ncc_c.specs.Outcomes.{no_room};
ghost use Rattle.ncc_c.specs.Rows.{Examines, HasCounts, HasRows, IsIndexed, PutsIndex, attr_count, id_count, no_rows};

use crate::outcome::{NO_ROOM, Outcome, PASSES, of_refusal, outcome_of};
use crate::rows::{
    AttrRow, DimRow, VarRow, count_attrs, count_ids, put_attrs, put_dims, put_ids_of_vars, put_vars,
};
use ncc_front::{Found, FrontRefusal};
use ncc_header::Schema;
use ncc_header::laws::length_is_canonical;
use ncc_layout::PlacedVar;
use ncc_schema::{gatts_at, list_size, vars_start};

/// What `ncc_index` answers, and `ncc_read` of the rows: how many there are.
#[repr(C)]
#[derive(Clone, Copy, Debug, PartialEq, Eq)]
pub struct Indexed {
    pub outcome: Outcome,
    pub dims: u64,
    pub attrs: u64,
    pub vars: u64,
    pub ids: u64,
}

/// How many rows there are.
fn counts_of(schema: &Schema) -> Indexed
    requires attrs { length schema.now.gatts + attr_count schema.now.vars < 2 ^ 64 }
    requires ids { id_count schema.now.vars < 2 ^ 64 }
    ensures counts { HasCounts schema.now result }
    ensures outcome { result.outcome ≡ no_room }
{
    let vars = schema.vars.as_slice();
    Indexed {
        outcome: outcome_of(NO_ROOM, 0, 0),
        dims: schema.dims.len() as u64,
        attrs: schema.gatts.len() as u64 + count_attrs(vars),
        vars: vars.len() as u64,
        ids: count_ids(vars),
    }
}

/// Puts all rows into arrays that have room for them.
fn put_rows(
    schema: &Schema,
    placed: &[PlacedVar],
    dims: &mut [DimRow],
    attrs: &mut [AttrRow],
    vars: &mut [VarRow],
    ids: &mut [u64],
)
    requires fits { (places : List Place) × (length places ≡ length schema.now.vars)
        × (length (canon schema.now places) < 2 ^ 64) }
    requires placed { length placed.now ≡ length schema.now.vars }
    requires dims { length dims.old ≡ length schema.now.dims }
    requires attrs { length attrs.old ≡ length schema.now.gatts + attr_count schema.now.vars }
    requires vars { length vars.old ≡ length schema.now.vars }
    requires ids { length ids.old ≡ id_count schema.now.vars }
    ensures { HasRows schema.now placed.now dims.new attrs.new vars.new ids.new }
{
    let version = schema.version;
    let start = vars_start(schema);
    let all = schema.vars.as_slice();
    let globals = schema.gatts.len();
    let first = gatts_at(schema) + list_size(version);
    put_dims(
        version,
        2 * list_size(version),
        schema.dims.as_slice(),
        dims,
    );
    put_attrs(
        version,
        first,
        schema.gatts.as_slice(),
        &mut attrs[..globals],
    );
    put_vars(version, start, all, placed, vars, &mut attrs[globals..]);
    put_ids_of_vars(all, ids);
}

/// Is an array shorter than the count of its rows?
fn is_short(counts: &Indexed, dims: u64, attrs: u64, vars: u64, ids: u64) -> bool
    ensures { MatchBool result
        ((dims < counts.now.dims) ⊎ ((attrs < counts.now.attrs) ⊎ ((vars < counts.now.vars) ⊎ (ids < counts.now.ids))))
        ((counts.now.dims ≤ dims) × (counts.now.attrs ≤ attrs) × (counts.now.vars ≤ vars) × (counts.now.ids ≤ ids)) }
{
    dims < counts.dims || attrs < counts.attrs || vars < counts.vars || ids < counts.ids
}

/// Puts the rows of what was found, where there is room for them.
fn put_found(
    found: &Found,
    dims: &mut [DimRow],
    attrs: &mut [AttrRow],
    vars: &mut [VarRow],
    ids: &mut [u64],
) -> Indexed
    requires begun { (front : List ℕ) × (limit : ℕ) × Begins front limit found.now.header }
    requires placed { length (vars_of found.now.placed) ≡ length found.now.header.schema.vars }
    ensures counts { HasCounts found.now.header.schema result }
    ensures puts { PutsIndex found.now.header.schema (vars_of found.now.placed)
        dims.new attrs.new vars.new ids.new result.outcome }
{
    length_is_canonical();
    // A number of 64 bits, so that no offset is cut.
    let _length = found.header.length;
    let schema = &found.header.schema;
    let counts = counts_of(schema);
    if is_short(
        &counts,
        dims.len() as u64,
        attrs.len() as u64,
        vars.len() as u64,
        ids.len() as u64,
    ) {
        return counts;
    }
    put_rows(
        schema,
        found.placed.vars(),
        &mut dims[..counts.dims as usize],
        &mut attrs[..counts.attrs as usize],
        &mut vars[..counts.vars as usize],
        &mut ids[..counts.ids as usize],
    );
    Indexed {
        outcome: outcome_of(PASSES, 0, 0),
        ..counts
    }
}

/// An answer with nothing but an outcome.
pub fn without_rows(outcome: Outcome) -> Indexed
    ensures { result ≡ no_rows outcome }
{
    Indexed {
        outcome,
        dims: 0,
        attrs: 0,
        vars: 0,
        ids: 0,
    }
}

/// Puts the rows of an answer.
pub fn put_index(
    answer: &Result<Found, FrontRefusal>,
    dims: &mut [DimRow],
    attrs: &mut [AttrRow],
    vars: &mut [VarRow],
    ids: &mut [u64],
) -> Indexed
    requires { (front : List ℕ) × (file : ℕ) × (limit : ℕ) × Examines front file limit answer.now }
    ensures { IsIndexed answer.now dims.new attrs.new vars.new ids.new result }
{
    match answer {
        Ok(found) => put_found(found, dims, attrs, vars, ids),
        Err(refusal) => without_rows(of_refusal(*refusal)),
    }
}
