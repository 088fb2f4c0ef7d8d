//! What the bytes of an open file say while a record joins it, and after, whatever program writes them.

ghost use Rattle.std.specs.Prelude.{◌≡◌, ℕ, ◌+◌, ◌≤◌, List, length, min, take, drop, Some};
ghost use Rattle.ncc_values.specs.Version.{count_width_of};
ghost use Rattle.ncc_values.specs.XType.{size_of};
ghost use Rattle.ncc_schema.specs.declared.schema.Schema.{Schema};
ghost use Rattle.ncc_schema.specs.Schema.{header_with_count};
ghost use Rattle.ncc_layout.specs.declared.placed_file.Placed.{Placed};
ghost use Rattle.ncc_layout.specs.Elements.{var_at, IsPlace};
ghost use Rattle.ncc_layout.specs.Placed.{file_length_of, record_size_of_file, records_of_file, vars_of};
ghost use Rattle.ncc_check.specs.AppendLaws.{PassesOn, ShowsSame};
ghost use Rattle.ncc_check.specs.Appending.{HasRecord, HasRecordOrNot, Keeps, TakesRecord, length_with_record, next_record_at, with_record};
ghost use Rattle.ncc_check.specs.Checks.{Opens};

use ncc_header::laws::{header_or_stop, rewritten_count_is_begun};
use ncc_layout::laws::appending::{
    elements_lie_before_the_end, placed_in_longer, placed_with_one_more,
};
use ncc_layout::laws::{
    one_more_is_placed, placed_file_keeps_all_rules, placed_file_keeps_elements_apart,
};

/// Bytes are opened as one file: with one schema, and the variables at the same places.
pub fn opens_as_one()
    ensures { (bytes : List ℕ) (limit : ℕ) (s : Schema) (p : Placed) (t : Schema) (q : Placed)
        → Opens bytes limit s p → Opens bytes limit t q → (s ≡ t) × ShowsSame p (file_length_of p) q }
{
    header_or_stop();
}

/// Where nothing below the next record's place changed and nothing is missing, the bytes of an open file that
/// takes a record pass with the same header, and are opened as the same file, in their length.
pub fn kept_bytes_pass_on()
    ensures passes { (bytes new : List ℕ) (limit : ℕ) (s : Schema) (p : Placed) (o : Opens bytes limit s p)
        → TakesRecord s p → Keeps bytes (next_record_at p) new → PassesOn new limit o.header }
    ensures opens { (bytes new : List ℕ) (limit : ℕ) (s : Schema) (p : Placed) (t : Schema) (q : Placed)
        → Opens bytes limit s p → TakesRecord s p → Keeps bytes (next_record_at p) new
        → Opens new limit t q → (s ≡ t) × ShowsSame p (length new) q }
{
    header_or_stop();
    placed_in_longer();
    placed_file_keeps_all_rules();
}

/// With one more record the bytes of an open file that takes it pass with the header that counts it, and are opened
/// as exactly the same file with one more record.
pub fn bytes_with_a_record_pass_on()
    ensures passes { (bytes image : List ℕ) (limit : ℕ) (s : Schema) (p : Placed) (o : Opens bytes limit s p)
        → TakesRecord s p → length image ≡ record_size_of_file p
        → PassesOn (with_record bytes s p image) limit (header_with_count o.header (records_of_file p + 1)) }
    ensures opens { (bytes image : List ℕ) (limit : ℕ) (s : Schema) (p : Placed) (t : Schema) (q : Placed)
        → Opens bytes limit s p → TakesRecord s p → length image ≡ record_size_of_file p
        → HasRecord s p t q → Opens (with_record bytes s p image) limit t q }
    ensures opened { (bytes image : List ℕ) (limit : ℕ) (s : Schema) (p : Placed) (t : Schema) (q : Placed)
        → Opens bytes limit s p → TakesRecord s p → length image ≡ record_size_of_file p
        → Opens (with_record bytes s p image) limit t q → HasRecord s p t q }
    ensures long { (bytes image : List ℕ) (limit : ℕ) (s : Schema) (p : Placed)
        → Opens bytes limit s p → TakesRecord s p → length image ≡ record_size_of_file p
        → length (with_record bytes s p image) ≡ length_with_record p }
{
    header_or_stop();
    rewritten_count_is_begun();
    placed_with_one_more();
    one_more_is_placed();
    placed_file_keeps_all_rules();
}

/// Whether the old records stand or the new one too, all bytes from the count field's end to that of the last record
/// are as before, and so are those of each element. With the new record its image stands at its place.
pub fn old_elements_stay()
    ensures bytes { (bytes image new : List ℕ) (s : Schema) (p : Placed) (place size : ℕ)
        → HasRecordOrNot bytes s p image new
        → 4 + count_width_of s.version ≤ place → place + size ≤ min (next_record_at p) (length bytes)
        → take size (drop place new) ≡ take size (drop place bytes) }
    ensures elements { (bytes image new : List ℕ) (limit : ℕ) (s : Schema) (p : Placed) (n place : ℕ) (index : List ℕ)
        → Opens bytes limit s p → TakesRecord s p → HasRecordOrNot bytes s p image new
        → IsPlace (record_size_of_file p) (vars_of p) n index (Some place)
        → take (size_of (var_at (vars_of p) n).xtype) (drop place new)
        ≡ take (size_of (var_at (vars_of p) n).xtype) (drop place bytes) }
    ensures added { (bytes image : List ℕ) (limit : ℕ) (s : Schema) (p : Placed)
        → Opens bytes limit s p → TakesRecord s p
        → take (length image) (drop (next_record_at p) (with_record bytes s p image)) ≡ image }
{
    elements_lie_before_the_end();
    placed_file_keeps_all_rules();
    placed_file_keeps_elements_apart();
}
