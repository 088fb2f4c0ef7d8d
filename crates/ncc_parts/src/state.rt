//! Where the header goes on after the bytes that a decoder took.

ghost use Rattle.std.specs.Prelude.{◌≡◌, ◌++◌, ◌<◌, ℕ, List, None, Some, IfSome, length};
ghost use Rattle.ncc_schema.specs.declared.schema.Header.{Header as TheHeader};
ghost use Rattle.ncc_header.specs.declared.fault.HeaderError.TheVariants as errors;
ghost use Rattle.ncc_header.specs.Answers.{Begins};
ghost use Rattle.ncc_header.specs.Awaited.{AreNamesOf, names_told, unfinished_at};
ghost use Rattle.ncc_header.specs.Decoder.{HasFailed, Took, limit_of};
ghost use Rattle.ncc_header.specs.State.{IsSettled};
ghost use Rattle.ncc_parts.specs.Parts.{part_at, parts_of};

use ncc_header::{Decoder, Unfinished};

/// The part of the header that the byte is in that comes after those that a decoder took, and the names that are known
/// there: they are the part and the names of every header that begins with those bytes and goes on. None only where the
/// bytes are a whole header or have a fault that stays, or after want of memory.
pub fn unfinished(decoder: Decoder) -> Option<Unfinished>
    ensures exact { result ≡ unfinished_at decoder.state }
    ensures part { (taken more : List ℕ) (h : TheHeader) → Took decoder taken
        → Begins (taken ++ more) (limit_of decoder) h → length taken < h.length
        → IfSome result (λ u. part_at (length taken) (parts_of h.schema) ≡ Some u.part) }
    ensures names { (taken more : List ℕ) (h : TheHeader) → Took decoder taken
        → Begins (taken ++ more) (limit_of decoder) h → IfSome result (λ u. AreNamesOf h.schema (names_told u)) }
    ensures settled { (taken : List ℕ) → Took decoder taken → ¬ HasFailed decoder errors.Memory → result ≡ None
        → IsSettled taken (limit_of decoder) }
{
    decoder.unfinished()
}
