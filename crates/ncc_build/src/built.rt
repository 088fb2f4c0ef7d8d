//! A schema that can be written.

ghost use Rattle.std.specs.Prelude.{◌≡◌, ◌<◌};
ghost use Rattle.ncc_schema.specs.Schema.{count_limit, places_of, Legal};
ghost use Rattle.ncc_layout.specs.Plans.{IsKnown, known, IsStandard};
ghost use Rattle.ncc_build.specs.File.{IsWritable};
ghost use Rattle.ncc_build.specs.Building.{IsBuilt};

use ncc_schema::{Schema, VarPlace};
use ncc_values::Seq;

/// A schema, and its standard placement.
#[derive(Drop)]
pub struct Built {
    schema: Schema,
    places: Seq<VarPlace>,
    ghost built: { ∥ IsBuilt schema ∥₁ },
    ghost counted: { ∥ IsKnown schema.count × (known schema.count < count_limit schema.version) ∥₁ },
    ghost writable: { ∥ IsWritable schema ∥₁ },
    ghost standard: { ∥ IsStandard schema places ∥₁ },
    ghost legal: { ∥ Legal schema (places_of places) ∥₁ },
}

impl Built {
    ghost use Rattle.ncc_build.specs.Builds.{schema_of, places_of_built};

    /// A schema whose calls were not refused, at its standard places.
    pub(crate) fn new(schema: Schema, places: Seq<VarPlace>) -> Built
        requires built { ∥ IsBuilt schema ∥₁ }
        requires counted { ∥ IsKnown schema.count × (known schema.count < count_limit schema.version) ∥₁ }
        requires writable { ∥ IsWritable schema ∥₁ }
        requires standard { ∥ IsStandard schema places ∥₁ }
        requires legal { ∥ Legal schema (places_of places) ∥₁ }
        ensures schema { schema_of result ≡ schema }
        ensures places { places_of_built result ≡ places }
    {
        Built { schema, places }
    }

    /// All that its header says but for the places.
    pub fn schema(&self) -> &Schema
        ensures { result.now ≡ schema_of self.now }
    {
        &self.schema
    }

    /// The places of its variables, in their order.
    pub fn places(&self) -> &[VarPlace]
        ensures { result.now ≡ places_of_built self.now }
    {
        self.places.as_slice()
    }
}
