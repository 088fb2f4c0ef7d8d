//! What holds of names.

ghost use Rattle.std.specs.Prelude.{◌↔◌, IsTrue};
ghost use Rattle.ncc_values.specs.Name.{FitsAsName, is_name};

/// Which names keep the rule is told by a test.
#[tactic(auto, using(crate::proofs::NamesTold::name_told))]
pub fn names_are_told(name: &[u8])
    ensures { IsTrue (is_name name.now) ↔ FitsAsName name.now }
{}
