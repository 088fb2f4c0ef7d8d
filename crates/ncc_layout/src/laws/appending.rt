//! What the layout rules say of a longer file and of one more record, whatever program writes them.

ghost use Rattle.std.specs.Prelude.{◌≡◌, ℕ, ◌+◌, ◌*◌, ◌≤◌, List, Option, Some, IfSome, false};
ghost use Rattle.ncc_schema.specs.declared.schema.Count.TheVariants.{Known};
ghost use Rattle.ncc_schema.specs.declared.schema.Schema.{Schema};
ghost use Rattle.ncc_schema.specs.Schema.{Place, with_count};
ghost use Rattle.ncc_layout.specs.declared.placed_file.Placed.{Placed};
ghost use Rattle.ncc_layout.specs.Sizes.{record_size_of};
ghost use Rattle.ncc_layout.specs.Extents.{extents_of, records_of, LeastBegin};
ghost use Rattle.ncc_layout.specs.Rules.{IsPlaced};
ghost use Rattle.ncc_layout.specs.Elements.{var_at, IsPlace, LiesInFile};
ghost use Rattle.ncc_layout.specs.Placed.{header_length_of, record_size_of_file, records_of_file, vars_of, extents_of_file};

use super::placed_file_keeps_all_rules;

/// A placed file with a known number of records is placed in a longer one.
pub fn placed_in_longer()
    ensures { (s : Schema) (places : List Place) (header file more n : ℕ)
        → s.count ≡ Known n → IsPlaced s places header file → file ≤ more → IsPlaced s places header more }
{}

/// A placed file is placed with one more record where it is no shorter, and has room for that record after
/// the others; without record variables it needs none.
pub fn placed_with_one_more()
    ensures { (s : Schema) (places : List Place) (header file more n : ℕ) (first : Option ℕ)
        → s.count ≡ Known n → IsPlaced s places header file → file ≤ more
        → LeastBegin (records_of (extents_of s places)) first
        → IfSome first (λ begin. begin + (n + 1) * record_size_of s ≤ more)
        → IsPlaced (with_count s (n + 1)) places header more }
{}

/// In a placed file with record variables each element lies before the end of the last record, and each of a
/// fixed variable before the records begin.
pub fn elements_lie_before_the_end()
    ensures all { (p : Placed) (begin n place : ℕ) (index : List ℕ)
        → LeastBegin (records_of (extents_of_file p)) (Some begin)
        → IsPlace (record_size_of_file p) (vars_of p) n index (Some place)
        → LiesInFile (header_length_of p) (begin + records_of_file p * record_size_of_file p) (var_at (vars_of p) n)
        place }
    ensures fixed { (p : Placed) (begin n place : ℕ) (index : List ℕ)
        → LeastBegin (records_of (extents_of_file p)) (Some begin)
        → IsPlace (record_size_of_file p) (vars_of p) n index (Some place)
        → (var_at (vars_of p) n).extent.is_record ≡ false
        → LiesInFile (header_length_of p) begin (var_at (vars_of p) n) place }
{
    placed_file_keeps_all_rules();
}
