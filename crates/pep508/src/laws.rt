//! Laws of the lines of a file, and of the slices of a line.

ghost use Rattle.std.specs.Prelude.{◌≡◌, ◌⊎◌, ◌==◌, ◌∷◌, ◌++◌, [], ℕ, Bool, List, Some, Ok, true, false, filter, map};
ghost use Rattle.std.specs.List.{Contains, concat, list_any};
ghost use Rattle.pep508.specs.Lines.{AreLines, lines_of};
ghost use Rattle.pep508.specs.Parts.{IsCommentPlace, IsEnding, comment_place, ended};
ghost use Rattle.pep508.specs.Requirement.{IsSpecifier, MayStandFor, RequirementParts, file_of, requirement_of};
ghost use Rattle.pep508.specs.Slices.{IsCut, Slices, joined, slices_of, with_version};

use pep440::laws::a_set_has_its_bytes;

/// A line has at most one cut: its slices.
pub fn a_line_has_one_cut()
    ensures { (line : List ℕ) (slices : Slices) → IsCut line slices → slices_of line ≡ slices }
{}

/// A comment begins at the first `#` that stands at the start or behind a space or a tab. There is one
/// such place; without such a `#` it is the end.
pub fn a_comment_begins_where_it_first_may()
    ensures is { (content : List ℕ) → IsCommentPlace content (comment_place true content) }
    ensures one { (content : List ℕ) (place : ℕ)
        → IsCommentPlace content place → comment_place true content ≡ place }
{}

/// A text has its lines: they join to the text, and there is one such list.
pub fn a_text_has_its_lines()
    ensures lines { (text : List ℕ) → AreLines (lines_of text) }
    ensures joined { (text : List ℕ) → concat (lines_of text) ≡ text }
    ensures one { (text : List ℕ) (lines : List (List ℕ))
        → AreLines lines → concat lines ≡ text → lines ≡ lines_of text }
{}

/// What is read of a file are lines.
pub fn a_file_reads_as_lines()
    ensures { (bytes : List ℕ) (lines : List (List ℕ)) → file_of bytes ≡ Ok lines → AreLines lines }
{}

/// Lines may get one more without an LF of its own behind them, where it and the one before it have an
/// ending, or are given one.
pub fn lines_may_get_one_more()
    ensures first { (line ending : List ℕ) → list_any (λ b. b == 10) line ≡ false → IsEnding ending
        → AreLines (ended ending line ∷ []) }
    ensures next { (lines : List (List ℕ)) (last line ending : List ℕ)
        → AreLines (lines ++ last ∷ [])
        → list_any (λ b. b == 10) line ≡ false → IsEnding ending
        → AreLines (lines ++ ended ending last ∷ ended ending line ∷ []) }
{}

/// A line that asks for something may get other specifiers, and then stand where it stood.
pub fn a_line_may_get_specifiers()
    ensures { (line specifiers : List ℕ) (wanted : RequirementParts)
        → requirement_of line ≡ Ok (Some wanted)
        → IsSpecifier specifiers
        → MayStandFor line (joined (with_version specifiers (slices_of line))) }
{
    a_set_has_its_bytes();
}

/// Lines may be left out.
pub fn lines_may_be_left_out()
    ensures { (keeps : List ℕ → Bool) (lines : List (List ℕ)) → AreLines lines
        → AreLines (filter keeps lines) }
{}

/// Lines may be exchanged for others that ask for something and end alike.
pub fn lines_may_be_exchanged()
    ensures { (change : List ℕ → List ℕ) (lines : List (List ℕ)) → AreLines lines
        → ((line : List ℕ) → Contains lines line
        → (change line ≡ line) ⊎ MayStandFor line (change line))
        → AreLines (map change lines) }
{}
