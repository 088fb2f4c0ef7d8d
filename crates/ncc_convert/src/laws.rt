//! What an open file holds, each law the contract of a function that does nothing.

ghost use Rattle.std.specs.Prelude.{ℕ, List};
ghost use Rattle.ncc_values.specs.Numbers.{IsBytes};
ghost use Rattle.ncc_values.specs.declared.version.Version.{Version};
ghost use Rattle.ncc_schema.specs.declared.schema.Schema.{Schema};
ghost use Rattle.ncc_schema.specs.Schema.{Sound};
ghost use Rattle.ncc_layout.specs.declared.placed_file.Placed.{Placed};
ghost use Rattle.ncc_check.specs.Checks.{Opens};
ghost use Rattle.ncc_build.specs.Dataset.{Dataset, IsDataset, as_version, with_version};
ghost use Rattle.ncc_write.specs.Planned.{IsPlanned, found_schema};
ghost use Rattle.ncc_convert.specs.Found.{IsOf};

/// What an open file holds, of which each byte is one, is a dataset by each sound schema that is planned for it, and so
/// also by its own where the number of records is told.
pub fn open_file_holds_a_dataset()
    ensures { (bytes : List ℕ) (limit : ℕ) (s : Schema) (p : Placed) (t : Schema) → Opens bytes limit s p
        → IsBytes bytes → IsPlanned s p t → Sound t → (d : Dataset) × IsDataset d × IsOf bytes p t d }
{}

/// By the schema that is planned in another version an open file's dataset is its own one in that version, and all else
/// is the same.
pub fn dataset_in_another_version()
    ensures { (bytes : List ℕ) (s : Schema) (p : Placed) (v : Version) (d : Dataset) → IsDataset d
        → IsOf bytes p (found_schema s p) d → Sound (with_version (found_schema s p) v)
        → IsDataset (as_version d v) × IsOf bytes p (with_version (found_schema s p) v) (as_version d v) }
{}
