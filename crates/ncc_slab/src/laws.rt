//! What holds of selections, whatever program reads them.

ghost use Rattle.std.specs.Prelude.{◌≡◌, ℕ, ◌<◌, ◌^◌, None, length};
ghost use Rattle.std.specs.List.{AllByRecursion};
ghost use Rattle.ncc_layout.specs.Elements.{var_at};
ghost use Rattle.ncc_layout.specs.Placed.{vars_of};
ghost use Rattle.ncc_slab.specs.declared.slab.Slab.{Slab};
ghost use Rattle.ncc_slab.specs.Laws.{CountIsProduct, RefusedUnlessItFits, SelectedIsInside, PartsJoin, WholePartIsSelected, OrderIsRowMajor, NumbersAreThere, SelectedIsWhole, SelectsAtMostAll, CountFits, SelectedIsInFile, PlacesAreCounted, PartHasPlaces, PlacesAddPart, PartHasNumbers, PartsGoOn, NoPartIsTheEnd, EndIsAllTaken, PartsAreSelected, WholeSlabIsThere, WholeSlabAdjoins};
ghost use Rattle.ncc_slab.specs.Refusals.{slab_fault};
ghost use Rattle.ncc_slab.specs.Selection.{selected_count};

use crate::gridding::length_fits;
use ncc_layout::Placed;
use ncc_layout::laws::{placed_file_keeps_all_rules, placed_file_keeps_elements_apart};

/// As many elements are selected as the product of the counts.
pub fn count_is_product()
    ensures { CountIsProduct }
{}

/// A selection isn't refused exactly where it fits in the shape.
pub fn refused_unless_it_fits()
    ensures { RefusedUnlessItFits }
{}

/// What is selected is there.
pub fn selected_is_inside()
    ensures { SelectedIsInside }
{}

/// A part, and after it the next one, are one part.
pub fn parts_join()
    ensures { PartsJoin }
{}

/// The part that is the whole selection is what is selected.
pub fn whole_part_is_selected()
    ensures { WholePartIsSelected }
{}

/// The n-th index list below the counts has the row-major number n.
pub fn order_is_row_major()
    ensures { OrderIsRowMajor }
{}

/// The number of each value is that of its element.
pub fn numbers_are_there()
    ensures { NumbersAreThere }
{}

/// Where every element has its bytes in a file that is no longer than these bytes, a selection that isn't
/// refused has them: `ncc_check::laws::open_file_is_long` says so of an open file.
pub fn selected_is_whole()
    ensures { SelectedIsWhole }
{}

/// A selection has no more elements than the variable.
pub fn selects_at_most_all()
    ensures { SelectsAtMostAll }
{}

/// Where no count is given all indices from the start on that fit are taken.
pub fn count_fits()
    ensures { CountFits }
{}

/// Where every element has its bytes in the file, those of a selection that isn't refused lie inside it.
pub fn selected_is_in_file()
    ensures { SelectedIsInFile }
{}

/// There are as many places as selected elements.
pub fn places_are_counted()
    ensures { PlacesAreCounted }
{}

/// The places of a part are those of its elements.
pub fn part_has_places()
    ensures { PartHasPlaces }
{}

/// Values are added at the places of a part exactly where they are those of the part, of which the file has
/// all bytes.
pub fn places_add_part()
    ensures { PlacesAddPart }
{}

/// After no values, the number of each value of a part is that of its element.
pub fn part_has_numbers()
    ensures { PartHasNumbers }
{}

/// The next part is of the elements after those that were taken, and leaves what is after both.
pub fn parts_go_on()
    ensures { PartsGoOn }
{}

/// A part is empty exactly where nothing is left.
pub fn no_part_is_the_end()
    ensures { NoPartIsTheEnd }
{}

/// Nothing is left exactly where all elements are taken.
pub fn end_is_all_taken()
    ensures { EndIsAllTaken }
{}

/// All parts of a selection, one after another until none is left, are what is selected.
pub fn parts_are_selected()
    ensures { PartsAreSelected }
{}

/// The selection of a slab that is there isn't refused.
pub fn whole_slab_is_there()
    ensures { WholeSlabIsThere }
{
    placed_file_keeps_all_rules();
}

/// The elements of a slab lie one after another: their bytes are the slab's.
pub fn whole_slab_adjoins()
    ensures { WholeSlabAdjoins }
{
    placed_file_keeps_all_rules();
}

/// Numbers of the machine are numbers of 64 bits.
fn numbers_fit(numbers: &[u64])
    ensures { AllByRecursion (λ n. n < 2 ^ 64) numbers.now }
{}

/// The lengths of a placed variable are numbers of 64 bits.
pub fn lengths_fit(placed: &Placed, var: usize)
    requires { var < length (vars_of placed.now) }
    ensures { AllByRecursion (λ l. l < 2 ^ 64) (var_at (vars_of placed.now) var).shape }
{
    numbers_fit(placed.shape(var));
}

/// How many elements of a placed file are selected is a number of 64 bits.
pub fn selected_count_fits(placed: &Placed)
    ensures { (var : ℕ) (s : Slab) → slab_fault (vars_of placed.now) var s ≡ None → selected_count s < 2 ^ 64 }
{
    placed_file_keeps_all_rules();
    placed_file_keeps_elements_apart();
    length_fits(placed);
}
