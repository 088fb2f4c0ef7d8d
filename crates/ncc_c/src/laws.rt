//! What holds of the numbers, whatever program puts them out.

ghost use Rattle.std.specs.Prelude.{◌≡◌, ◌+◌, ℕ, List, length, take, drop, Some};
ghost use Rattle.ncc_values.specs.declared.version.Version.{Version};
ghost use Rattle.ncc_values.specs.XType.{size_of};
ghost use Rattle.ncc_build.specs.Dataset.{with_version};
ghost use Rattle.ncc_layout.specs.declared.placed_var.PlacedVar.{PlacedVar};
ghost use Rattle.ncc_layout.specs.Elements.{IsPlace, placed_vars, var_at};
ghost use Rattle.ncc_schema.specs.declared.schema.Schema.{Schema};
ghost use Rattle.ncc_schema.specs.declared.schema.Header.{Header};
ghost use Rattle.ncc_schema.specs.Schema.{Place, header_with_count, with_count};
ghost use Rattle.ncc_layout.specs.declared.placed_file.Placed.{Placed};
ghost use Rattle.ncc_layout.specs.Placed.{record_size_of_file, records_of_file, vars_of};
ghost use Rattle.ncc_check.specs.Appending.{HasRecordOrNot, Keeps, TakesRecord, length_with_record, next_record_at, with_record};
ghost use Rattle.ncc_check.specs.AppendLaws.{PassesOn};
ghost use Rattle.ncc_front.specs.Fronts.{IsFile};
ghost use Rattle.ncc_front.specs.Judging.{FindsOf};
ghost use Rattle.ncc_slab.specs.declared.slab.Slab.{Slab};
ghost use Rattle.ncc_slab.specs.Selected.{places_of};
ghost use Rattle.ncc_ranges.specs.Steps.{FitsFile};
ghost use Rattle.ncc_c.specs.declared.opening.Opened.{Opened as OpenedAs};
ghost use Rattle.ncc_c.specs.declared.rows.AttrRow.{AttrRow as AttrRowOf};
ghost use Rattle.ncc_c.specs.declared.rows.DimRow.{DimRow as DimRowOf};
ghost use Rattle.ncc_c.specs.declared.rows.VarRow.{VarRow as RowOf};
ghost use Rattle.ncc_c.specs.declared.verdict.Verdict.{Verdict as Judged};
ghost use Rattle.ncc_c.specs.Describing.{RowsFit, schema_by};
ghost use Rattle.ncc_c.specs.Opening.{HasNumbersOf, Opens, TellsFile};
ghost use Rattle.ncc_c.specs.Rows.{ShapesBy, all_attr_rows, all_dim_rows, all_var_rows, ids_of_vars};
ghost use Rattle.ncc_c.specs.Selecting.{AreVars, IsSameVar, IsVarOf};
ghost use Rattle.ncc_c.specs.Texts.{NamesAllKinds};
ghost use Rattle.ncc_c.specs.Verdicts.{Tells};

use ncc_check::laws::appending::{
    bytes_with_a_record_pass_on, kept_bytes_pass_on, old_elements_stay,
};
use ncc_front::laws::one_finding;

/// Each number of a fault or a note has the name that `ncc check` prints for it, and that of a refused record the one that
/// `ncc extend` prints.
pub fn kinds_have_names()
    ensures { NamesAllKinds }
{}

/// Of a file that passes `ncc_read` tells the numbers that `ncc_judge` tells.
pub fn numbers_are_those_of_a_verdict()
    ensures { (front : List ℕ) (file limit : ℕ) (dims : List DimRowOf) (attrs : List AttrRowOf) (vars : List RowOf)
        (ids : List ℕ) (v : Judged) (x : OpenedAs) → Tells front file limit v
        → TellsFile front file limit dims attrs vars ids x → v.outcome.state ≡ 0 → Opens x → HasNumbersOf v x }
{
    one_finding();
}

/// Row k of an index is that of variable k at its place.
pub fn rows_are_variables()
    ensures { (s : Schema) (places : List Place) (file : ℕ) → length places ≡ length s.vars
        → AreVars (all_var_rows s (placed_vars s places file)) (placed_vars s places file) }
{}

/// A row and its lengths are those of one variable: its type, lengths, begin and kind, on which alone it depends where
/// the elements of a selection lie, and whether they fit in a file.
pub fn one_variable()
    ensures same { (row : RowOf) (shape : List ℕ) (x y : PlacedVar) → IsVarOf row shape x → IsVarOf row shape y
        → IsSameVar x y }
    ensures places { (record_size : ℕ) (s : Slab) (x y : PlacedVar) → IsSameVar x y
        → places_of record_size x s ≡ places_of record_size y s }
    ensures fits { (record_size file : ℕ) (s : Slab) (x y : PlacedVar) → IsSameVar x y
        → FitsFile record_size file x s → FitsFile record_size file y s }
{}

/// The lengths of a variable are those of the rows of its dimensions, with the number of records where a row has 0.
pub fn shapes_are_those_of_rows()
    ensures { (front : List ℕ) (file limit : ℕ) (h : Header) (p : Placed) → FindsOf front file limit h p
        → ShapesBy (all_dim_rows h.schema) (records_of_file p) h.schema.vars (vars_of p) }
{}

/// The rows of an index, with the front that they point to, give the schema of the header again, without records, in
/// whichever version: so `ncc_encode` writes the same dimensions, attributes and variables.
pub fn index_describes_its_schema()
    ensures fit { (front : List ℕ) (file limit : ℕ) (h : Header) (p : Placed) → FindsOf front file limit h p
        → RowsFit front (all_dim_rows h.schema) (all_attr_rows h.schema) (all_var_rows h.schema (vars_of p))
        (ids_of_vars h.schema.vars) }
    ensures schema { (front : List ℕ) (file limit : ℕ) (h : Header) (p : Placed) (v : Version)
        → FindsOf front file limit h p → schema_by v front (all_dim_rows h.schema) (all_attr_rows h.schema)
        (all_var_rows h.schema (vars_of p)) (ids_of_vars h.schema.vars) ≡ with_count (with_version h.schema v) 0 }
{}

/// Of a file whose front is examined, and which takes a record: with zeros up to where `ncc_record` puts the record, the
/// record there, and its number in the count field, its bytes pass with one more record, whatever the record's bytes
/// are, and are as many as `ncc_record` says. As long as nothing before that place changed and nothing is missing, they
/// pass as before. Each element that was there keeps its bytes.
pub fn record_joins()
    ensures passes { (front : List ℕ) (file limit : ℕ) (h : Header) (p : Placed) (bytes image : List ℕ)
        → FindsOf front file limit h p → TakesRecord h.schema p → IsFile front file bytes
        → length image ≡ record_size_of_file p
        → PassesOn (with_record bytes h.schema p image) limit (header_with_count h (records_of_file p + 1)) }
    ensures long { (front : List ℕ) (file limit : ℕ) (h : Header) (p : Placed) (bytes image : List ℕ)
        → FindsOf front file limit h p → TakesRecord h.schema p → IsFile front file bytes
        → length image ≡ record_size_of_file p
        → length (with_record bytes h.schema p image) ≡ length_with_record p }
    ensures kept { (front : List ℕ) (file limit : ℕ) (h : Header) (p : Placed) (bytes new : List ℕ)
        → FindsOf front file limit h p → TakesRecord h.schema p → IsFile front file bytes
        → Keeps bytes (next_record_at p) new → PassesOn new limit h }
    ensures elements { (front : List ℕ) (file limit : ℕ) (h : Header) (p : Placed) (bytes image new : List ℕ)
        (n place : ℕ) (index : List ℕ) → FindsOf front file limit h p → TakesRecord h.schema p
        → IsFile front file bytes → HasRecordOrNot bytes h.schema p image new
        → IsPlace (record_size_of_file p) (vars_of p) n index (Some place)
        → take (size_of (var_at (vars_of p) n).xtype) (drop place new)
        ≡ take (size_of (var_at (vars_of p) n).xtype) (drop place bytes) }
{
    bytes_with_a_record_pass_on();
    kept_bytes_pass_on();
    old_elements_stay();
}
