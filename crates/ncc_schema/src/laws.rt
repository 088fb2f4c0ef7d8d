//! Laws of the canonical spelling, each the contract of a function that does nothing.

ghost use Rattle.std.specs.Prelude.{◌≡◌, ◌%◌, ◌<◌, ℕ, List, length, slice_get, Some};
ghost use Rattle.ncc_values.specs.Numbers.{big_endian};
ghost use Rattle.ncc_values.specs.Version.{offset_width_of};
ghost use Rattle.ncc_schema.specs.declared.schema.Schema.{Schema};
ghost use Rattle.ncc_schema.specs.declared.names.NameOf.{NameOf};
ghost use Rattle.ncc_schema.specs.Schema.{streaming_mark, with_count, Place, Legal, IsTyped};
ghost use Rattle.ncc_schema.specs.Header.{IsHeader, with_count_field, canon_name, canon};
ghost use Rattle.ncc_schema.specs.Names.{HasName, name_of, name_at, begin_at, StandsAt, header_length};

/// The canonical spelling of a legal schema and placement is a header of them.
pub fn canonical_header()
    ensures { (s : Schema) (places : List Place) → Legal s places → IsTyped s → IsHeader s places (canon s places) }
{}

/// A header is as long as the canonical spelling of its schema and placement, whatever bytes its
/// padding has and whichever tags its empty lists.
pub fn canonical_length()
    ensures { (s : Schema) (places : List Place) (b : List ℕ) → IsHeader s places b
        → length b ≡ length (canon s places) }
{}

/// Where a name of a canonical header is told to stand, it stands with its length and its padding.
pub fn name_is_there()
    ensures { (s : Schema) (places : List Place) (of : NameOf) → Legal s places → HasName s of
        → StandsAt (canon s places) (canon_name s.version (name_of s of)) (name_at s places of) }
{}

/// The length of a canonical header doesn't depend on where its variables are.
pub fn one_length()
    ensures { (s : Schema) (places : List Place) → length places ≡ length s.vars
        → length (canon s places) ≡ header_length s }
{}

/// A canonical header is a multiple of four bytes long.
pub fn header_is_aligned()
    ensures { (s : Schema) → header_length s % 4 ≡ 0 }
{}

/// Where the begin field of a variable is told to stand, its begin stands.
pub fn begin_is_there()
    ensures { (s : Schema) (places : List Place) (i : ℕ) (p : Place) → length places ≡ length s.vars
        → slice_get places i ≡ Some p
        → StandsAt (canon s places) (big_endian (offset_width_of s.version) p.begin) (begin_at s places i) }
{}

/// Where the count field of a header is written again, with a number below the streaming mark, the header is
/// that of the schema with that count, whatever its padding and the tags of its empty lists.
pub fn count_field_is_rewritten()
    ensures { (s : Schema) (places : List Place) (b : List ℕ) (n : ℕ) → IsHeader s places b
        → n < streaming_mark s.version → IsHeader (with_count s n) places (with_count_field s.version n b) }
{}
