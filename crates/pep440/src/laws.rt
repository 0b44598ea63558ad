//! Laws of the grammars of versions and of specifiers.

ghost use Rattle.std.specs.Prelude.{◌≡◌, ℕ, List, Ok, Err, Result, Some, true, ◌⊎◌, [], false, slice_index};
ghost use Rattle.std.specs.List.{list_all};
ghost use Rattle.std.specs.declared.cmp.Ordering.TheVariants.{Equal};
ghost use Rattle.lists.specs.Spaces.{is_space_or_tab};
ghost use Rattle.pep440.specs.Canonical.{canonical};
ghost use Rattle.pep440.specs.Grammar.{IsVersionText, Spells};
ghost use Rattle.pep440.specs.Matching.{matches};
ghost use Rattle.pep440.specs.Order.{version_cmp};
ghost use Rattle.pep440.specs.Tied.Reading.{bare_parts, version_of};
ghost use Rattle.pep440.specs.SetGrammar.{IsClause, PieceAnswers, SetAnswers, begins_operator, is_set_byte};
ghost use Rattle.pep440.specs.Tied.Sets.{clause_of, set_of};
ghost use Rattle.pep440.specs.Version.{IsVersion, VersionParts, fits};
ghost use Rattle.pep440.specs.declared.fault.Fault.{Fault};
ghost use Rattle.pep440.specs.declared.fault.Fault.TheVariants.{BadVersion, NumberTooLarge};
ghost use Rattle.pep440.specs.declared.specifier.Clause.{Clause};

/// A text spells at most one version.
pub fn a_text_spells_one_version()
    ensures { (text : List ℕ) (v w : VersionParts) → Spells text v → Spells text w → v ≡ w }
{}

/// What a text reads as is what the grammar says of it: the version that it spells where its numbers fit,
/// `NumberTooLarge` where they don't, and `BadVersion` where it spells none.
pub fn a_text_reads_as_what_it_spells()
    ensures read { (text : List ℕ) (v : VersionParts)
        → version_of text ≡ Ok v → Spells text v × (fits v ≡ true) }
    ensures found { (text : List ℕ) (v : VersionParts)
        → Spells text v → fits v ≡ true → version_of text ≡ Ok v }
    ensures large { (text : List ℕ) (v : VersionParts)
        → Spells text v → fits v ≡ false → version_of text ≡ Err NumberTooLarge }
    ensures bad { (text : List ℕ) → ((v : VersionParts) → ¬ Spells text v)
        → version_of text ≡ Err BadVersion }
{}

/// A text with nothing around it reads as the parts that it spells, over numbers of any size.
pub fn a_bare_text_reads_as_its_parts()
    ensures read { (text : List ℕ) (v : VersionParts)
        → bare_parts text ≡ Some v → IsVersionText text v }
    ensures found { (text : List ℕ) (v : VersionParts)
        → IsVersionText text v → bare_parts text ≡ Some v }
{}

/// The canonical text of a version spells that version, trailing zeros too.
pub fn a_canonical_text_spells_its_version()
    ensures { (v : VersionParts) → IsVersion v → Spells (canonical v) v }
{}

/// The canonical text of a version is read as that version.
pub fn a_canonical_text_is_read()
    ensures { (v : VersionParts) → IsVersion v → version_of (canonical v) ≡ Ok v }
{}

/// A piece of a set reads as a clause exactly where it is one and its numbers fit, whatever its place.
pub fn a_piece_reads_as_its_clause()
    ensures read { (place : ℕ) (piece : List ℕ) (c : Clause)
        → clause_of place piece ≡ Ok c → IsClause piece c × (fits c.version ≡ true) }
    ensures found { (place : ℕ) (piece : List ℕ) (c : Clause)
        → IsClause piece c → fits c.version ≡ true → clause_of place piece ≡ Ok c }
{}

/// What a piece of a set reads as is what the grammar says of it, its faults too: `ArbitraryEquality`
/// exactly where it begins with `===`, `NumberTooLarge` exactly where it is a clause with a number that
/// is too large, and `BadClause` with its place exactly where it is nothing else.
pub fn a_piece_has_one_answer()
    ensures answers { (place : ℕ) (piece : List ℕ)
        → PieceAnswers place piece (clause_of place piece) }
    ensures one { (place : ℕ) (piece : List ℕ) (answer : Result Clause Fault)
        → PieceAnswers place piece answer → clause_of place piece ≡ answer }
{}

/// What a text reads as is what the grammar says of its pieces: their clauses, or the fault of the first
/// piece that has one. One comma may stand behind the last clause.
pub fn a_set_has_one_answer()
    ensures answers { (text : List ℕ) → SetAnswers text (set_of text) }
    ensures one { (text : List ℕ) (answer : Result (List Clause) Fault)
        → SetAnswers text answer → set_of text ≡ answer }
{}

/// A text that reads as a set has bytes of its own alone, and an operator begins it where no space does.
pub fn a_set_has_its_bytes()
    ensures bytes { (text : List ℕ) (clauses : List Clause)
        → set_of text ≡ Ok clauses → list_all is_set_byte text ≡ true }
    ensures first { (text : List ℕ) (clauses : List Clause)
        → set_of text ≡ Ok clauses → is_space_or_tab (slice_index text 0) ≡ false
        → (text ≡ []) ⊎ (begins_operator (slice_index text 0) ≡ true) }
{}

/// Versions that are equal in their order match alike, also where they are spelled differently.
pub fn equal_versions_match_alike()
    ensures { (clauses : List Clause) (v w : VersionParts) → version_cmp v w ≡ Equal
        → matches clauses v ≡ matches clauses w }
{}
