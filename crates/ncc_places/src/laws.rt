//! Laws of a layout, each the contract of a function that does nothing.

ghost use Rattle.std.specs.Prelude.{◌≡◌, List, IsPermutation, length, map};
ghost use Rattle.std.specs.List.{range_with_len};
ghost use Rattle.ncc_schema.specs.declared.schema.Header.{Header};
ghost use Rattle.ncc_schema.specs.Schema.{places_of};
ghost use Rattle.ncc_layout.specs.Rules.Overlap.{InOrder};
ghost use Rattle.ncc_check.specs.Notes.{extents_in};
ghost use Rattle.ncc_places.specs.Order.{by_begin};

/// The lines of variables are those of all variables of the header, each once, in the order of their begins, and of
/// equal begins in that of their numbers.
pub fn variables_are_in_order()
    ensures all { (h : Header) → IsPermutation (extents_in h) (by_begin (extents_in h)) }
    ensures each { (h : Header) → length (places_of h.places) ≡ length h.schema.vars → IsPermutation
        (range_with_len 0 (length h.schema.vars)) (map (λ e. e.variable) (by_begin (extents_in h))) }
    ensures order { (h : Header) → InOrder (by_begin (extents_in h)) }
{}
