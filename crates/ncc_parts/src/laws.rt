//! Laws of the parts of a header, each the contract of a function that does nothing.

ghost use Rattle.std.specs.Prelude.{◌≡◌, ◌≢◌, ◌+◌, ◌-◌, ◌<◌, ◌≤◌, ◌==◌, ℕ, suc, IsSome, List, Some, length, position};
ghost use Rattle.std.specs.List.{flat_map};
ghost use Rattle.ncc_values.specs.Version.{count_width_of, offset_width_of};
ghost use Rattle.ncc_schema.specs.declared.schema.Schema.{Schema};
ghost use Rattle.ncc_schema.specs.declared.schema.Header.{Header};
ghost use Rattle.ncc_schema.specs.Header.{canon};
ghost use Rattle.ncc_schema.specs.declared.names.NameOf.{NameOf};
ghost use Rattle.ncc_schema.specs.declared.names.NameOf.TheVariants as of;
ghost use Rattle.ncc_schema.specs.Names.{HasName, list_size, name_at, unplaced, var_at};
ghost use Rattle.ncc_schema.specs.Schema.{Legal, Place, places_of};
ghost use Rattle.ncc_header.specs.Answers.{Begins};
ghost use Rattle.ncc_layout.specs.declared.fault.LayoutFault.{LayoutFault};
ghost use Rattle.ncc_layout.specs.declared.fault.LayoutFaultKind.{LayoutFaultKind};
ghost use Rattle.ncc_check.specs.Faults.{HasLayoutFault};
ghost use Rattle.ncc_parts.specs.declared.broken.Broken.{Broken};
ghost use Rattle.ncc_parts.specs.Breaking.{Breaks, Keeps, broken_by, kind_of};
ghost use Rattle.ncc_header.specs.declared.part.Part.TheVariants as parts;
ghost use Rattle.ncc_parts.specs.Parts.{bytes_named, part_at, part_named, parts_of};

/// The bytes of the parts, one after the other, are the canonical header, so that each byte of it is in one of them.
pub fn parts_spell_the_header()
    ensures { (s : Schema) → flat_map (λ p. p.1) (parts_of s) ≡ canon s (unplaced s.vars) }
{}

/// Each byte of a dimension, of an attribute, and of a variable's name and dimensions is in the part that is labelled so,
/// and so is each of the last bytes of a variable, its type, vsize and begin, whatever these say.
pub fn parts_have_their_labels()
    ensures items { (s : Schema) (places : List Place) (x : NameOf) (o : ℕ) → length places ≡ length s.vars
        → o < length (bytes_named s x) → part_at (name_at s places x + o) (parts_of s) ≡ Some (part_named x) }
    ensures some { (s : Schema) (x : NameOf) → HasName s x → 0 < length (bytes_named s x) }
    ensures places { (s : Schema) (places : List Place) (i m : ℕ) → length places ≡ length s.vars
        → i < length s.vars → 0 < m → m ≤ 4 + count_width_of s.version + offset_width_of s.version
        → part_at (var_at s places (suc i) - m) (parts_of s) ≡ Some (parts.Place i) }
{}

/// The bytes before the first item of a list, as many as the list's head has, are in the part of that head. So are those
/// of the letters and the version, and of the number of records, in theirs.
pub fn heads_have_their_labels()
    ensures dims { (s : Schema) (places : List Place) (m : ℕ) → length places ≡ length s.vars → 0 < m
        → m ≤ list_size s.version → part_at (name_at s places (of.Dim 0) - m) (parts_of s) ≡ Some parts.DimList }
    ensures globals { (s : Schema) (places : List Place) (m : ℕ) → length places ≡ length s.vars → 0 < m
        → m ≤ list_size s.version
        → part_at (name_at s places (of.Global 0) - m) (parts_of s) ≡ Some parts.GlobalList }
    ensures vars { (s : Schema) (places : List Place) (m : ℕ) → length places ≡ length s.vars → 0 < m
        → m ≤ list_size s.version → part_at (var_at s places 0 - m) (parts_of s) ≡ Some parts.VarList }
    ensures attrs { (s : Schema) (places : List Place) (i m : ℕ) → length places ≡ length s.vars
        → i < length s.vars → 0 < m → m ≤ list_size s.version
        → part_at (name_at s places (of.Attr i 0) - m) (parts_of s) ≡ Some (parts.AttrList i) }
    ensures magic { (s : Schema) (o : ℕ) → o < 4 → part_at o (parts_of s) ≡ Some parts.Magic }
    ensures numrecs { (s : Schema) (o : ℕ) → o < count_width_of s.version
        → part_at (4 + o) (parts_of s) ≡ Some parts.NumRecs }
{}

/// The numbers by which a rule is told to fail are those of that rule and variable, and the variable breaks the rule.
pub fn broken_rule_is_false()
    ensures { (h : Header) (file number : ℕ) (kind : LayoutFaultKind) (b : Broken)
        → Legal h.schema (places_of h.places) → number < length h.schema.vars
        → broken_by h file kind number ≡ Some b
        → (kind_of b ≡ kind) × Breaks h file number b × (Keeps h file kind number → ⊥) }
{}

/// A fault of the layout has numbers, unless a variable is too large.
pub fn layout_fault_is_told()
    ensures { (h : Header) (file : ℕ) (f : LayoutFault) → Legal h.schema (places_of h.places)
        → (x : HasLayoutFault h file f) → f.kind ≢ LayoutFaultKind.TooLarge
        → IsSome (broken_by h file f.kind x.number) }
{}

/// The variable of which the first begin field stands at the offset of a layout fault is the one that breaks the rule: no
/// two begin fields stand at one offset.
pub fn fault_is_at_its_variable()
    ensures { (bytes : List ℕ) (limit : ℕ) (h : Header) (file : ℕ) (f : LayoutFault) → Begins bytes limit h
        → (x : HasLayoutFault h file f) → position (λ p. p.begin_at == f.offset) h.places ≡ Some x.number }
{}
