//! The texts of the indices that a run of values along the last dimension shares.

ghost use Rattle.std.specs.Prelude.{◌≡◌, ◌+◌, ◌*◌, ◌≤◌, ◌<◌, length, take, get_or, map};
ghost use Rattle.ncc_slab.specs.Selection.{index_lists};
ghost use Rattle.ncc_csv.specs.Word.{word_text};
ghost use Rattle.ncc_csv.specs.Rows.{HasIndices};
ghost use Rattle.ncc_csv.specs.Runs.{leading_texts};

use crate::word::Word;
use ncc_slab::Slab;

/// How many indices are selected along a dimension.
pub fn count_along(slab: &Slab, dim: usize) -> u64
    requires { dim < length slab.now.count }
    ensures { result ≡ get_or slab.now.count dim 0 }
{
    slab.count.as_slice()[dim]
}

/// The distance of the indices along a dimension.
pub fn stride_along(slab: &Slab, dim: usize) -> u64
    requires { dim < length slab.now.stride }
    ensures { result ≡ get_or slab.now.stride dim 0 }
{
    slab.stride.as_slice()[dim]
}

/// An index along a dimension, by its number.
pub fn index_along(slab: &Slab, dim: usize, number: u64) -> u64
    requires fits { HasIndices slab.now }
    requires dim { dim < length slab.now.count }
    requires there { number < get_or slab.now.count dim 0 }
    ensures { result ≡ get_or slab.now.start dim 0 + number * get_or slab.now.stride dim 0 }
{
    slab.start.as_slice()[dim] + number * slab.stride.as_slice()[dim]
}

/// Sets the texts of the first indices of a selection, as many as there is room for, by the number of their
/// list in row-major order.
pub fn set_heads(heads: &mut [Word], slab: &Slab, number: u64)
    requires ranked { length heads.old ≤ length slab.now.count }
    requires fits { HasIndices slab.now }
    requires there { number < length (index_lists (take (length heads.old) slab.now.count)) }
    ensures { map word_text heads.new ≡ leading_texts slab.now (length heads.old) number }
{
    let mut rest = number;
    let mut dim = heads.len();
    while dim > 0 {
        dim -= 1;
        let count = count_along(slab, dim);
        heads[dim] = Word::unsigned(index_along(slab, dim, rest % count));
        rest /= count;
    }
}
