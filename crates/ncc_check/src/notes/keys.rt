//! Keys of names: names of one list are mostly told apart by them.

ghost use Rattle.std.specs.Prelude.{◌≡◌};
ghost use Rattle.ncc_check.specs.Noting.{key_of_name};

use ncc_values::number;

/// The last bytes of a name as a number, 8 of them at most. Names of one list mostly differ there.
pub fn key(name: &[u8]) -> u64
    ensures { result ≡ key_of_name name.now }
{
    if name.is_empty() {
        return 0;
    }
    let start = name.len().saturating_sub(8);
    number(&name[start..])
}
