//! What holds of each schema that was built.

ghost use Rattle.std.specs.Prelude.{◌<◌};
ghost use Rattle.ncc_schema.specs.Schema.{count_limit, places_of, Legal};
ghost use Rattle.ncc_layout.specs.Plans.{IsKnown, known, IsStandard};
ghost use Rattle.ncc_build.specs.File.{IsWritable};
ghost use Rattle.ncc_build.specs.Building.{IsBuilt};
ghost use Rattle.ncc_build.specs.Builds.{schema_of, places_of_built};

use crate::built::Built;

/// A schema that was built keeps what the calls of a builder gave: names that keep the rule, the number of its records
/// below the limit, sizes and begins that the version can tell, and its standard placement; the two are legal.
pub fn built_is_writable(built: &Built)
    ensures built { ∥ IsBuilt (schema_of built.now) ∥₁ }
    ensures counted { ∥ IsKnown (schema_of built.now).count
        × (known (schema_of built.now).count < count_limit (schema_of built.now).version) ∥₁ }
    ensures writable { ∥ IsWritable (schema_of built.now) ∥₁ }
    ensures standard { ∥ IsStandard (schema_of built.now) (places_of_built built.now) ∥₁ }
    ensures legal { ∥ Legal (schema_of built.now) (places_of (places_of_built built.now)) ∥₁ }
{}
