//! The variable that a name means.

ghost use Rattle.ncc_csv.specs.Named.{IsFirstNamed};

use ncc_header::Var;

/// The number of the first variable with this name, compared byte by byte.
pub fn var_named(vars: &[Var], name: &[u8]) -> Option<usize>
    ensures { IsFirstNamed vars.now name.now result }
{
    for k in 0..vars.len() {
        if vars[k].name.as_slice() == name {
            return Some(k);
        }
    }
    None
}
