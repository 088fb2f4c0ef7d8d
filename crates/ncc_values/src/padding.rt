//! Padding to a multiple of four bytes.

ghost use Rattle.std.specs.Prelude.{◌≡◌, ℕ, ◌+◌, ◌%◌, ◌≤◌};
ghost use Rattle.ncc_values.specs.Padding.{padding_of};

/// How many bytes bring `n` to a multiple of four: the least such number.
pub fn pad(n: u64) -> u64
    ensures padding { result ≡ padding_of n }
    ensures whole { (n + result) % 4 ≡ 0 }
    ensures least { (k : ℕ) → (n + k) % 4 ≡ 0 → result ≤ k }
{
    (4 - n % 4) % 4
}
