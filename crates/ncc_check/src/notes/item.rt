//! What the notes on names take of an item of a list.

use ncc_header::{Attr, Dim, Var, Version};
use ncc_schema::{attr_size, dim_size, var_size};

/// A dimension, an attribute or a variable.
pub trait Item {
    ghost use Rattle.std.specs.Prelude.{◌≡◌, ℕ, List, length};
    ghost use Rattle.ncc_values.specs.declared.version.Version.{Version};
    ghost use Rattle.ncc_schema.specs.Names.{capped};

    /// Its name.
    ghost text: { Self → List ℕ };

    /// The bytes of an item like it, which are as many as it takes in the canonical header.
    ghost canon: { Version → Self → List ℕ };

    fn name(&self) -> &[u8]
        ensures { result.now ≡ text self.now };

    /// How many bytes it takes in the canonical header, 2^64 - 1 at most.
    fn size(&self, version: Version) -> u64
        ensures { result ≡ capped (length (canon version self.now)) };
}

impl Item for Dim {
    ghost use Rattle.ncc_schema.specs.Header.{canon_dim};

    ghost text = { λ d. d.name };

    ghost canon = { canon_dim };

    fn name(&self) -> &[u8] {
        self.name.as_slice()
    }

    fn size(&self, version: Version) -> u64 {
        dim_size(version, self)
    }
}

impl Item for Attr {
    ghost use Rattle.ncc_schema.specs.Header.{canon_attr};

    ghost text = { λ a. a.name };

    ghost canon = { canon_attr };

    fn name(&self) -> &[u8] {
        self.name.as_slice()
    }

    fn size(&self, version: Version) -> u64 {
        attr_size(version, self)
    }
}

impl Item for Var {
    ghost use Rattle.ncc_schema.specs.Names.{canon_unplaced};

    ghost text = { λ x. x.name };

    ghost canon = { canon_unplaced };

    fn name(&self) -> &[u8] {
        self.name.as_slice()
    }

    fn size(&self, version: Version) -> u64 {
        var_size(version, self)
    }
}
