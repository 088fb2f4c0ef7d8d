//! The places of a selection, one after the other.

ghost use Rattle.std.specs.Prelude.{◌≤◌};

use crate::fault::SlabFault;
use crate::grid::Grid;
use crate::gridding::grid_of;
use crate::slab::Slab;
use ncc_layout::Placed;
use std::alloc::Global;

/// The places in bytes of the selected elements that are left, row-major. It borrows nothing.
#[derive(Drop)]
pub struct Places {
    grid: Grid,
    next: u64,
    ghost within: { next ≤ grid.count },
}

impl Places {
    ghost use Rattle.std.specs.Prelude.{◌≡◌};
    ghost use Rattle.ncc_layout.specs.Elements.{var_at};
    ghost use Rattle.ncc_layout.specs.Placed.{record_size_of_file, vars_of};
    ghost use Rattle.ncc_slab.specs.Answers.{SelectsAs};
    ghost use Rattle.ncc_slab.specs.Selected.{places_of};
    ghost use Rattle.ncc_slab.specs.Places.{places_left};

    /// The places of all selected elements of a variable, by its number. A selection is refused before any
    /// memory is asked for; afterwards none is.
    pub fn new(alloc: Global, placed: &Placed, var: usize, slab: &Slab) -> Result<Places, SlabFault>
        ensures { SelectsAs (vars_of placed.now) var slab.now (λ p. places_left p
            ≡ places_of (record_size_of_file placed.now) (var_at (vars_of placed.now) var) slab.now) result }
    {
        let grid = grid_of(alloc, placed, var, slab)?;
        Ok(Places { grid, next: 0 })
    }
}

impl Iterator for Places {
    ghost use Rattle.std.specs.Iterator.{YieldsFirst, item_count};
    ghost use Rattle.ncc_slab.specs.Places.{places_left};

    type Item = u64;

    ghost next_gives = { YieldsFirst places_left };

    ghost remaining = { item_count places_left };

    fn next(&mut self) -> Option<u64> {
        if self.next == self.grid.count() {
            return None;
        }
        let place = self.grid.place(self.next);
        self.next += 1;
        Some(place)
    }

    fn size_hint(&self) -> (usize, Option<usize>) {
        let left = self.len();
        (left, Some(left))
    }
}

impl ExactSizeIterator for Places {
    fn len(&self) -> usize {
        (self.grid.count() - self.next) as usize
    }
}
