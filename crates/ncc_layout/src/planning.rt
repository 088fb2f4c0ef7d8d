//! The standard placement of a schema.

ghost use Rattle.std.specs.Prelude.{◌≡◌, ◌≢◌, ℕ, List, [], ◌∷◌, ◌++◌, map, Err, IsOk, IfOk, MatchResult, if◌then◌else◌};
ghost use Rattle.ncc_schema.specs.declared.schema.Var.{Var};
ghost use Rattle.ncc_schema.specs.Schema.{places_of, LegalDims, Sound, Legal, is_record_var};
ghost use Rattle.ncc_layout.specs.Sizes.{rounded};
ghost use Rattle.ncc_layout.specs.Standard.{FitsVersion};
ghost use Rattle.ncc_layout.specs.Plans.{IsKnown, known, AreEnds, IsStandard, IsPlan, PlanFails};

mod fitting;

use crate::plan_fault::PlanFault;
use crate::sizing::sizes;
use crate::vsize::vsize_word;
pub use fitting::records_begin;
use fitting::{fits_version, offsets_fit};
use ncc_schema::{
    Count, Dim, Schema, Var, VarPlace, header_length, is_record_var, var_size, vars_start,
};
use std::alloc::{AllocError, Global};

/// Where the variables so far end.
#[derive(Clone, Copy)]
struct Ends {
    /// In the header.
    header: u64,
    /// The fixed ones.
    fixed: u64,
    /// The slabs of record 0.
    slabs: u64,
}

/// Where the next variable begins.
fn begin_of(ends: Ends, dims: &[Dim], var: &Var) -> u64
    requires { LegalDims dims.now var.now.dims }
    ensures { result ≡ if is_record_var dims.now var.now then ends.slabs else ends.fixed }
{
    if is_record_var(dims, var) {
        ends.slabs
    } else {
        ends.fixed
    }
}

/// The ends with one more variable.
fn with_var(ends: Ends, schema: &Schema, var: &Var, size: u64) -> Ends
    requires legal { LegalDims schema.now.dims var.now.dims }
    requires size { size ≡ rounded schema.now.dims var.now }
    ensures { (before : List Var) → AreEnds schema.now before ends
        → AreEnds schema.now (before ++ var.now ∷ []) result }
{
    let mut more = ends;
    more.header = ends.header.saturating_add(var_size(schema.version, var));
    if is_record_var(schema.dims.as_slice(), var) {
        more.slabs = ends.slabs.saturating_add(size);
    } else {
        more.fixed = ends.fixed.saturating_add(size);
    }
    more
}

/// The places of all variables.
fn placed(
    alloc: Global,
    schema: &Schema,
    sizes: &[u64],
    start: Ends,
) -> Result<Vec<VarPlace>, AllocError>
    requires sound { Sound schema.now }
    requires fits { (records : ℕ) × FitsVersion schema.now records }
    requires sizes { sizes.now ≡ map (rounded schema.now.dims) schema.now.vars }
    requires start { AreEnds schema.now [] start }
    ensures standard { IfOk result (λ places. IsStandard schema.now places.items) }
    ensures none { schema.now.vars ≡ [] → IsOk result }
{
    let dims = schema.dims.as_slice();
    let vars = schema.vars.as_slice();
    let width = schema.version.offset_width() as u64;
    let mut ends = start;
    let mut places = Vec::new(alloc);
    for number in 0..vars.len() {
        let var = &vars[number];
        let begin = begin_of(ends, dims, var);
        ends = with_var(ends, schema, var, sizes[number]);
        places.push(VarPlace {
            vsize: vsize_word(schema.version, sizes[number]),
            begin,
            begin_at: ends.header - width,
        })?;
    }
    Ok(places)
}

/// The number of records, where it is known.
fn known(count: Count) -> u64
    requires { IsKnown count }
    ensures { result ≡ known count }
{
    match count {
        Count::Known(n) => n,
        Count::Streaming => unreachable!(),
    }
}

/// The places from the header on, first of the fixed variables and then of those of record 0, each
/// with its padding; or why the version can't tell them.
pub fn standard(alloc: Global, schema: &Schema) -> Result<Vec<VarPlace>, PlanFault>
    requires sound { Sound schema.now }
    requires known { IsKnown schema.now.count }
    ensures plan { MatchResult result
        (λ places. IsPlan schema.now (known schema.now.count) places.items)
        (PlanFails schema.now (known schema.now.count)) }
    ensures legal { IfOk result (λ places. Legal schema.now (places_of places.items)) }
    ensures none { schema.now.vars ≡ [] → result ≢ Err PlanFault.Memory }
{
    let records = known(schema.count);
    let found = sizes(alloc, schema)?;
    let header = header_length(schema);
    let slabs = records_begin(schema, found.rounded.as_slice(), header);
    if !fits_version(schema, &found, slabs, records) {
        return Err(PlanFault::SizeForVersion);
    }
    let start = Ends {
        header: vars_start(schema),
        fixed: header,
        slabs,
    };
    let places = placed(alloc, schema, found.rounded.as_slice(), start)?;
    if !offsets_fit(schema.version, &places) {
        return Err(PlanFault::OffsetForVersion);
    }
    Ok(places)
}
