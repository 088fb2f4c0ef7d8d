//! What the layout rules say of elements and of faults, whatever program judges them.

ghost use Rattle.std.specs.Prelude.{◌≡◌, ◌⊎◌, ℕ, ◌+◌, ◌*◌, ◌<◌, ◌≤◌, ◌↔◌, List, length, true, Contains, IsPermutation, if◌then◌else◌};
ghost use Rattle.std.specs.List.{AllByRecursion};
ghost use Rattle.ncc_values.specs.XType.{size_of};
ghost use Rattle.ncc_schema.specs.declared.schema.Count.TheVariants.{Known};
ghost use Rattle.ncc_schema.specs.declared.schema.Schema.{Schema};
ghost use Rattle.ncc_schema.specs.Schema.{Place, Sound, with_count};
ghost use Rattle.ncc_layout.specs.declared.fault.LayoutFaultKind.{LayoutFaultKind};
ghost use Rattle.ncc_schema.specs.Names.{header_length};
ghost use Rattle.ncc_layout.specs.declared.extent.Extent.{Extent};
ghost use Rattle.ncc_layout.specs.declared.placed_var.PlacedVar.{PlacedVar};
ghost use Rattle.ncc_layout.specs.Sizes.{product, record_size_of};
ghost use Rattle.ncc_layout.specs.Extents.{extents_of, records_of, LeastBegin};
ghost use Rattle.ncc_layout.specs.declared.placed_file.Placed.{Placed};
ghost use Rattle.ncc_layout.specs.Rules.RecordWindow.{InRecordWindow, InRecord};
ghost use Rattle.ncc_layout.specs.Rules.{IsPlaced};
ghost use Rattle.ncc_layout.specs.Rules.Overlap.{FirstShared, InOrder, FirstInside};
ghost use Rattle.ncc_layout.specs.Faults.{FirstFault};
ghost use Rattle.ncc_layout.specs.Elements.{row_major, placed_vars, var_at, place_of, next_index, Inside, HasShape, LiesInSlab, Own};
ghost use Rattle.ncc_layout.specs.Standard.{standard_places, file_length, FitsVersion, ArePacked, AreInTurn, AreAligned};
ghost use Rattle.ncc_layout.specs.Placed.{header_length_of, file_length_of, record_size_of_file, vars_of, KeepsRules, Holds, HasRoom, HasOneMore};

use ncc_schema::laws::header_is_aligned;

pub mod appending;

/// Index lists inside a shape have different row-major numbers.
pub fn indices_have_numbers_of_their_own()
    ensures { (lengths is js : List ℕ)
        → Inside lengths is → Inside lengths js → row_major lengths is ≡ row_major lengths js → is ≡ js }
{}

/// An element stays in the slab of its variable in its record.
pub fn element_stays_in_its_slab()
    ensures { (record_size records : ℕ) (x : PlacedVar) (index : List ℕ)
        → HasShape records x → Inside x.shape index → LiesInSlab record_size x index }
{}

/// A slab stays in its record: between where that record and the next one begin.
pub fn slab_stays_in_its_record()
    ensures { (record_size : ℕ) (es : List Extent) (begin number : ℕ) (e : Extent)
        → AllByRecursion (InRecordWindow record_size es) es → LeastBegin (records_of es) (Some begin)
        → Contains (records_of es) e → InRecord record_size begin number e }
{}

/// Where all layout rules hold, every element of every variable and record has bytes of its own,
/// past the header, inside the file and shared with no other.
pub fn placed_elements_are_apart()
    ensures { (s : Schema) (places : List Place) (header file : ℕ)
        → IsPlaced s places header file → Own header file (record_size_of s) (placed_vars s places file) }
{}

/// All layout rules hold, or one of them fails first, and never both.
pub fn placed_or_fault()
    ensures either { (s : Schema) (places : List Place) (header file : ℕ) → IsPlaced s places header file
        ⊎ ((kind : LayoutFaultKind) × (number : ℕ) × FirstFault s places header file kind number) }
    ensures apart { (s : Schema) (places : List Place) (header file : ℕ) (kind : LayoutFaultKind) (number : ℕ)
        → IsPlaced s places header file → FirstFault s places header file kind number → ⊥ }
{}

/// Every value of a placed file keeps all rules, and has the record size of its variables.
pub fn placed_file_keeps_all_rules()
    ensures { (p : Placed) → KeepsRules p }
{}

/// Every value of a placed file keeps its elements apart.
pub fn placed_file_keeps_elements_apart()
    ensures { (p : Placed) → Own (header_length_of p) (file_length_of p) (record_size_of_file p) (vars_of p) }
{}

/// The elements of a variable of a placed file have no more bytes together than the file.
pub fn shape_is_in_file()
    ensures { (p : Placed) (n : ℕ) → n < length (vars_of p)
        → product (var_at (vars_of p) n).shape * size_of (var_at (vars_of p) n).xtype ≤ file_length_of p }
{
    placed_file_keeps_all_rules();
}

/// The next place along the last index is one element further on, but that of a record variable of rank 1,
/// which is in the next record.
pub fn next_place_adjoins()
    ensures element { (record_size : ℕ) (x : PlacedVar) (index : List ℕ) → length index ≡ length x.shape
        → (if x.extent.is_record then 1 else 0) < length x.shape
        → place_of record_size x (next_index index) ≡ place_of record_size x index + size_of x.xtype }
    ensures record { (record_size : ℕ) (x : PlacedVar) (index : List ℕ) → length index ≡ length x.shape
        → x.extent.is_record ≡ true → length x.shape ≡ 1
        → place_of record_size x (next_index index) ≡ place_of record_size x index + record_size }
{}

/// There is one first fault at most, and of one variable.
pub fn one_fault()
    ensures { (s : Schema) (places : List Place) (header file : ℕ) (kind other : LayoutFaultKind)
        (number also : ℕ) → FirstFault s places header file kind number → FirstFault s places header file other also
        → (kind ≡ other) × (number ≡ also) }
{}

/// No extent is empty, wherever the variables of a schema are placed.
pub fn no_extent_is_empty()
    ensures { (s : Schema) (places : List Place) → Sound s → AllByRecursion (λ e. 0 < e.slab) (extents_of s places) }
{}

/// Where no extent is empty, the first that shares a byte with one before it is the first, in order of begin
/// and number, that begins before the one before it ends.
pub fn neighbours_tell_the_first_overlap()
    ensures { (es sorted : List Extent) (number : ℕ)
        → AllByRecursion (λ e. 0 < e.slab) sorted → IsPermutation es sorted → InOrder sorted
        → FirstShared es number ↔ FirstInside sorted number }
{}

/// A standard placement that the version can tell keeps all rules in a file of its own length.
pub fn standard_places_keep_all_rules()
    ensures { (s : Schema) (n : ℕ) → s.count ≡ Known n → FitsVersion s n
        → IsPlaced s (standard_places s) (header_length s) (file_length s n) }
{}

/// In a standard placement each variable begins where the one before it of its kind ends with its padding,
/// the first fixed one where the header ends, and the first record variable after all fixed ones.
pub fn standard_places_are_packed()
    ensures { (s : Schema) → ArePacked (header_length s) (extents_of s (standard_places s)) }
{}

/// In a standard placement no variable begins before an earlier one of its kind.
pub fn standard_places_are_in_turn()
    ensures { (s : Schema) → AreInTurn (extents_of s (standard_places s)) }
{}

/// In a standard placement all variables begin at multiples of four.
pub fn standard_places_are_aligned()
    ensures { (s : Schema) → AreAligned (extents_of s (standard_places s)) }
{
    header_is_aligned();
}

/// A placed file has room for one more record where a file of this length has it by its schema.
pub fn room_for_one_more()
    ensures { (s : Schema) (places : List Place) (header file more n : ℕ) (p : Placed)
        → s.count ≡ Known n → Holds s places header file p
        → IsPlaced (with_count s (n + 1)) places header more → HasRoom p more }
{}

/// With one more record a placed file is that of the schema with that count.
pub fn one_more_is_placed()
    ensures { (s : Schema) (places : List Place) (header file more n : ℕ) (p q : Placed)
        → s.count ≡ Known n → Holds s places header file p → HasOneMore p more q
        → Holds (with_count s (n + 1)) places header more q }
{}
