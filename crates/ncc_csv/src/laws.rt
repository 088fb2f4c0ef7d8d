//! What holds of rows and of picks, whatever program prints them.

ghost use Rattle.ncc_csv.specs.Laws.{FittingHasIndices, PartIsOfElements, RowsJoin, AllAreSelected, PickFaultIsShapeFault};

/// All indices of a selection that fits in its shape are numbers of 64 bits.
pub fn fitting_has_indices()
    ensures { FittingHasIndices }
{}

/// The rows of values are those of their elements.
pub fn part_is_of_elements()
    ensures { PartIsOfElements }
{}

/// The rows of a part, and after them those of the next one, are the rows of both.
pub fn rows_join()
    ensures { RowsJoin }
{}

/// The first elements, as many as are selected, are those of the selection.
pub fn all_are_selected()
    ensures { AllAreSelected }
{}

/// What is refused before a count is sought is the fault of the selection.
pub fn pick_fault_is_shape_fault()
    ensures { PickFaultIsShapeFault }
{}
