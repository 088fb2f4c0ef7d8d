//! The headline: what `check`, `open`, `read_slab` and `finish` say together.

ghost use Rattle.std.specs.Prelude.{◌≡◌, ℕ, ◌≤◌, List, length, Ok};
ghost use Rattle.ncc_schema.specs.declared.schema.Schema.{Schema};
ghost use Rattle.ncc_layout.specs.declared.placed_file.Placed.{Placed};
ghost use Rattle.ncc_check.specs.Checks.{Checks, Opens};
ghost use Rattle.ncc_check.specs.Passes.{HasOwnElements};
ghost use Rattle.ncc_check.specs.declared.report.Report.{Report};
ghost use Rattle.ncc_slab.specs.declared.slab.Slab.{Slab};
ghost use Rattle.ncc_build.specs.File.{header_of};
ghost use Rattle.ncc_write.specs.Headline.{ReadsThere, PassesAndReads};
ghost use Rattle.ncc_write.specs.Laws.{IsCompleted};
ghost use Rattle.ncc_write.specs.Writing.{dataset_of};

use ncc_check::laws::{one_report, passing_elements_are_apart, passing_has_no_fault};
use ncc_header::laws::header_or_stop;
use ncc_layout::laws::placed_file_keeps_elements_apart;
use ncc_slab::laws::{
    numbers_are_there, parts_are_selected, refused_unless_it_fits, selected_is_inside,
    selected_is_whole,
};

/// If `check` passes a store that tells its bytes, they begin with the header of exactly one schema, every element of
/// every variable and record has bytes of its own, past the header, inside the file and shared with no other; every
/// hyperslab read gives exactly the values there or refuses an index outside the shape; and every completed file
/// passes and reads back as written.
///
/// Of a store with these bytes `check` answers what `Checks` says, and `open` what `Opens` says; of an open file
/// `read_slab` answers `Selected`, or refuses by `slab_fault`, and a `SlabReader` gives part after part until none is
/// left, as `TakesAll` has them; and where a writer is finished `IsCompleted` holds of what went out.
pub fn headline()
    ensures passes { (bytes : List ℕ) (limit : ℕ) (r : Report) → Checks bytes limit (Ok r)
        → HasOwnElements bytes limit }
    ensures reads { (bytes : List ℕ) (limit : ℕ) (s : Schema) (p : Placed) → Opens bytes limit s p
        → (n : ℕ) (slab : Slab) → ReadsThere bytes p n slab }
    ensures completed { (s : Schema) (taken file : List ℕ) (limit : ℕ) → ∥ IsCompleted s taken file ∥₁
        → length (header_of s) ≤ limit → ∥ PassesAndReads (dataset_of s taken) s file limit ∥₁ }
{
    passing_elements_are_apart();
    passing_has_no_fault();
    one_report();
    header_or_stop();
    placed_file_keeps_elements_apart();
    refused_unless_it_fits();
    selected_is_inside();
    selected_is_whole();
    numbers_are_there();
    parts_are_selected();
}
