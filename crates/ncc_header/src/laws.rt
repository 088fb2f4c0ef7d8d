//! Laws of the grammar alone, each the contract of a function that does nothing.

ghost use Rattle.std.specs.Prelude.{◌≡◌, ◌≢◌, ℕ, ◌<◌, ◌≤◌, List, [], ◌++◌, length, ◌⊎◌};
ghost use Rattle.ncc_values.specs.Numbers.{IsBytes};
ghost use Rattle.ncc_header.specs.declared.fault.Fault.{Fault};
ghost use Rattle.ncc_header.specs.declared.fault.FaultKind.TheVariants.{EndsEarly};
ghost use Rattle.ncc_schema.specs.declared.schema.Schema.{Schema};
ghost use Rattle.ncc_schema.specs.declared.schema.Header.{Header};
ghost use Rattle.ncc_schema.specs.Schema.{streaming_mark, header_with_count, Place, places_of, Legal, IsTyped};
ghost use Rattle.ncc_schema.specs.Header.{IsHeader, with_count_field, canon};
ghost use Rattle.ncc_header.specs.Marks.{header_marks};
ghost use Rattle.ncc_header.specs.Answers.{Begins, Stops};

use ncc_schema::laws::{canonical_header, count_field_is_rewritten};

/// Of the fronts of one input at most one is a header, and of one schema and placement.
pub fn one_header()
    ensures { (s t : Schema) (p q : List Place) (b c x y : List ℕ) → IsHeader s p b → IsHeader t q c
        → b ++ x ≡ c ++ y → (b ≡ c) × (s ≡ t) × (p ≡ q) }
{}

/// Whatever is a header of at most `limit` bytes is what every input begins with of which it is a
/// front, with its schema and placement, and with the begin offsets and marks that it shows.
pub fn header_is_begun()
    ensures { (s : Schema) (places : List Place) (front rest : List ℕ) (limit : ℕ) → IsHeader s places front
        → length front ≤ limit
        → (h : Header) × Begins (front ++ rest) limit h × (h.schema ≡ s) × (places_of h.places ≡ places) }
{}

/// A header that an input begins with is as long as its canonical spelling, so that the offsets of
/// its names are those of that spelling.
pub fn length_is_canonical()
    ensures { (input : List ℕ) (limit : ℕ) (h : Header) → Begins input limit h
        → h.length ≡ length (canon h.schema (places_of h.places)) }
{}

/// Each input begins with a header within the limit, or stops with exactly one fault, and never both.
pub fn header_or_stop()
    ensures either { (input : List ℕ) (limit : ℕ) → IsBytes input → ((h : Header) × Begins input limit h)
        ⊎ ((f : Fault) × Stops input limit f) }
    ensures apart { (input : List ℕ) (limit : ℕ) (h : Header) (f : Fault) → Begins input limit h
        → Stops input limit f → ⊥ }
    ensures one_header { (input : List ℕ) (limit : ℕ) (h k : Header) → Begins input limit h → Begins input limit k
        → h ≡ k }
    ensures one_stop { (input : List ℕ) (limit : ℕ) (f g : Fault) → Stops input limit f → Stops input limit g → f ≡ g }
{}

/// A fault other than an early end stays, whatever bytes follow.
pub fn stop_stays()
    ensures { (input more : List ℕ) (limit : ℕ) (f : Fault) → Stops input limit f → f.kind ≢ EndsEarly
        → Stops (input ++ more) limit f }
{}

/// Bytes past the limit take no part in a fault.
pub fn limit_covers()
    ensures { (input more : List ℕ) (limit : ℕ) (f : Fault) → Stops input limit f → limit ≤ length input
        → Stops (input ++ more) limit f }
{}

/// A header without marks is the canonical spelling of its schema and placement.
pub fn unmarked_is_canonical()
    ensures { (s : Schema) (places : List Place) (b : List ℕ) → IsHeader s places b → header_marks b ≡ []
        → b ≡ canon s places }
{}

/// The canonical spelling of a legal schema and placement has no marks.
pub fn canonical_is_unmarked()
    ensures { (s : Schema) (places : List Place) → Legal s places → IsTyped s
        → header_marks (canon s places) ≡ [] }
{
    canonical_header();
}

/// Where the count field is written again, with a number below the streaming mark, the header that the input
/// begins with has that count, and else is the same: with its places, marks and begin offsets. The input is as
/// long as before.
pub fn rewritten_count_is_begun()
    ensures begun { (input : List ℕ) (limit : ℕ) (h : Header) (n : ℕ) → Begins input limit h
        → n < streaming_mark h.schema.version
        → Begins (with_count_field h.schema.version n input) limit (header_with_count h n) }
    ensures long { (input : List ℕ) (limit : ℕ) (h : Header) (n : ℕ) → Begins input limit h
        → length (with_count_field h.schema.version n input) ≡ length input }
{
    count_field_is_rewritten();
}
