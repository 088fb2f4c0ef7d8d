//! What holds of the steps of selections, whatever program finds them.

ghost use Rattle.std.specs.Prelude.{◌≡◌, ◌<◌, ◌^◌, ℕ, None};
ghost use Rattle.ncc_layout.specs.Elements.{var_at};
ghost use Rattle.ncc_layout.specs.Placed.{file_length_of, record_size_of_file, vars_of};
ghost use Rattle.ncc_slab.specs.declared.slab.Slab.{Slab};
ghost use Rattle.ncc_slab.specs.Refusals.{slab_fault};
ghost use Rattle.ncc_ranges.specs.Steps.{Fits};

use ncc_layout::Placed;
use ncc_layout::laws::{placed_file_keeps_all_rules, placed_file_keeps_elements_apart};

/// The length of a file is one of the machine's numbers.
fn length_fits(placed: &Placed)
    ensures { file_length_of placed.now < 2 ^ 64 }
{
    let _length = placed.file_length();
}

/// A selection of a variable of a placed file that isn't refused fits in that file.
pub fn selection_fits(placed: &Placed)
    ensures { (var : ℕ) (s : Slab) → slab_fault (vars_of placed.now) var s ≡ None
        → Fits (record_size_of_file placed.now) (file_length_of placed.now) (var_at (vars_of placed.now) var) s }
{
    placed_file_keeps_all_rules();
    placed_file_keeps_elements_apart();
    length_fits(placed);
}
