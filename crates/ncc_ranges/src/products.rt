//! Products that may be too large.

ghost use Rattle.std.specs.Prelude.{◌≡◌, ◌*◌, ◌<◌, ◌≤◌, ◌^◌, MatchOption};
ghost use Rattle.ncc_layout.specs.Sizes.{product};
ghost use Rattle.ncc_slab.specs.Axes.{ArePositive};

/// A number times the product of others, where it is less than 2^64.
pub fn product_times(numbers: &[u64], size: u64) -> Option<u64>
    requires positive { ArePositive numbers.now }
    requires size { 0 < size }
    ensures { MatchOption result (2 ^ 64 ≤ product numbers.now * size) (λ n. n ≡ product numbers.now * size) }
{
    let mut product = size;
    for k in 0..numbers.len() {
        product = product.checked_mul(numbers[k])?;
    }
    Some(product)
}
