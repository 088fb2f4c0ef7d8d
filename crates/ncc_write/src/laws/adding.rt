//! What one more record makes of a file that holds a dataset, each law the contract of a function that does nothing.

ghost use Rattle.std.specs.Prelude.{◌≡◌, ◌↔◌, ◌+◌, ℕ, List, [], ◌∷◌, ◌++◌, length, None};
ghost use Rattle.ncc_values.specs.Numbers.{IsBytes};
ghost use Rattle.ncc_values.specs.declared.values.Values.{Values};
ghost use Rattle.ncc_schema.specs.declared.schema.Schema.{Schema};
ghost use Rattle.ncc_schema.specs.Schema.{Place, Sound, places_of};
ghost use Rattle.ncc_layout.specs.declared.placed_file.Placed.{Placed};
ghost use Rattle.ncc_layout.specs.Elements.{var_at};
ghost use Rattle.ncc_layout.specs.Placed.{record_size_of_file, records_of_file, vars_of};
ghost use Rattle.ncc_layout.specs.Plans.{IsKnown, known};
ghost use Rattle.ncc_layout.specs.Sizes.{record_size_of};
ghost use Rattle.ncc_check.specs.Appending.{HasRecordOrNot, Keeps, TakesRecord, next_record_at, with_record};
ghost use Rattle.ncc_check.specs.Checks.{Opens};
ghost use Rattle.ncc_slab.specs.declared.slab.Slab.{Slab};
ghost use Rattle.ncc_slab.specs.Refusals.{slab_fault};
ghost use Rattle.ncc_slab.specs.Selected.{Selected};
ghost use Rattle.ncc_build.specs.Dataset.{Dataset, IsDataset};
ghost use Rattle.ncc_write.specs.Additions.{Adds, HoldsAll, HoldsOn};
ghost use Rattle.ncc_write.specs.Extends.{with_fills};
ghost use Rattle.ncc_write.specs.Holds.{vars_of as vars_of_dataset};
ghost use Rattle.ncc_write.specs.Records.{IsRecord, bytes_of_record, fill_values, followed_by};

use ncc_check::laws::appending::{
    bytes_with_a_record_pass_on, kept_bytes_pass_on, old_elements_stay,
};
use ncc_header::laws::header_or_stop;
use ncc_slab::laws::selected_is_inside;

/// The bytes of a record are as many as the schema says.
pub fn record_is_long()
    ensures { (s : Schema) (slabs : List Values) → IsRecord s slabs
        → length (bytes_of_record s slabs) ≡ record_size_of s }
{}

/// Fill values for each record variable are a record.
pub fn fills_are_a_record()
    ensures { (s : Schema) → Sound s → IsRecord s (fill_values s) }
{}

/// The schema of an open file whose bytes hold a dataset is the dataset's.
pub fn opens_with_its_schema()
    ensures { (bytes : List ℕ) (limit : ℕ) (places : List Place) (d : Dataset) (s : Schema) (p : Placed)
        → HoldsAll bytes limit places d → Opens bytes limit s p → s ≡ d.schema }
{
    header_or_stop();
}

/// The variables of an open file whose bytes hold a dataset, and its numbers, are the dataset's.
pub fn opens_with_its_variables()
    ensures vars { (bytes : List ℕ) (limit : ℕ) (places : List Place) (d : Dataset) (s : Schema) (p : Placed)
        → IsKnown d.schema.count → HoldsAll bytes limit places d → Opens bytes limit s p
        → vars_of p ≡ vars_of_dataset d places }
    ensures records { (bytes : List ℕ) (limit : ℕ) (places : List Place) (d : Dataset) (s : Schema) (p : Placed)
        → IsKnown d.schema.count → HoldsAll bytes limit places d → Opens bytes limit s p
        → records_of_file p ≡ known d.schema.count }
    ensures size { (bytes : List ℕ) (limit : ℕ) (places : List Place) (d : Dataset) (s : Schema) (p : Placed)
        → HoldsAll bytes limit places d → Opens bytes limit s p → record_size_of_file p ≡ record_size_of d.schema }
{
    header_or_stop();
}

/// With one more record the bytes of an open file hold the dataset with it, and where the old records stand they hold
/// the old one; and they pass, and take more records.
pub fn append_holds()
    ensures grows { (bytes : List ℕ) (limit : ℕ) (places : List Place) (d : Dataset) (s : Schema) (p : Placed)
        (slabs : List Values) → Adds bytes limit places d s p slabs
        → HoldsOn (with_record bytes s p (bytes_of_record s slabs)) limit places (followed_by d (slabs ∷ [])) }
    ensures dataset { (bytes : List ℕ) (limit : ℕ) (places : List Place) (d : Dataset) (s : Schema) (p : Placed)
        (slabs : List Values) → Adds bytes limit places d s p slabs → IsDataset (followed_by d (slabs ∷ [])) }
    ensures stands { (bytes new : List ℕ) (limit : ℕ) (places : List Place) (d : Dataset) (s : Schema) (p : Placed)
        (slabs : List Values) → Adds bytes limit places d s p slabs → Keeps bytes (next_record_at p) new
        → HoldsOn new limit places d }
{
    header_or_stop();
    kept_bytes_pass_on();
    bytes_with_a_record_pass_on();
    old_elements_stay();
}

/// A dataset with more records, and more after these, is the dataset with all of them.
pub fn followed_twice()
    ensures twice { (d : Dataset) (a b : List (List Values)) → IsKnown d.schema.count
        → followed_by (followed_by d a) b ≡ followed_by d (a ++ b) }
    ensures none { (d : Dataset) → IsKnown d.schema.count → followed_by d [] ≡ d }
    ensures fills { (d : Dataset) (k : ℕ) → IsKnown d.schema.count
        → followed_by (with_fills d k) (fill_values d.schema ∷ []) ≡ with_fills d (k + 1) }
{}

/// Whether the old records stand or the new one too, what is read of a selection of the open file is as before.
pub fn reads_stay()
    ensures { (bytes image new : List ℕ) (limit : ℕ) (s : Schema) (p : Placed) (n : ℕ) (slab : Slab) (values : Values)
        → Opens bytes limit s p → TakesRecord s p → HasRecordOrNot bytes s p image new
        → slab_fault (vars_of p) n slab ≡ None
        → (Selected new (record_size_of_file p) (var_at (vars_of p) n) slab values)
        ↔ (Selected bytes (record_size_of_file p) (var_at (vars_of p) n) slab values) }
{
    old_elements_stay();
    selected_is_inside();
}

/// Bytes that pass hold a dataset, where their number of records is known.
pub fn passing_file_holds_a_dataset()
    ensures { (bytes : List ℕ) (limit : ℕ) (s : Schema) (p : Placed) (o : Opens bytes limit s p) → IsBytes bytes
        → IsKnown s.count → (d : Dataset) × IsDataset d × HoldsAll bytes limit (places_of o.header.places) d }
{}
