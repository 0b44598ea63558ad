//! Laws of environments and their markers.

ghost use Rattle.std.specs.Prelude.{◌≡◌, ℕ, List, Ok, true};
ghost use Rattle.std.specs.List.{list_all};
ghost use Rattle.markers.specs.Comparisons.{compares};
ghost use Rattle.markers.specs.Environment.{IsEnvironment, Texts, environment_of, is_printable, text_of};
ghost use Rattle.markers.specs.declared.comparison.Comparison.TheVariants.{Equal};
ghost use Rattle.markers.specs.declared.variable.Variable.{Variable};

use pep440::laws::{a_bare_text_reads_as_its_parts, a_piece_reads_as_its_clause};

/// What is read of a file is an environment: it has the eleven texts, and each is lawful.
pub fn a_file_reads_as_an_environment()
    ensures { (bytes : List ℕ) (texts : Texts)
        → environment_of bytes ≡ Ok texts → IsEnvironment texts }
{}

/// A printable text compares as equal with itself, as a version or as a text, and so does each text of
/// an environment.
pub fn a_text_equals_itself()
    ensures printable { (text : List ℕ)
        → list_all is_printable text ≡ true → compares Equal text text ≡ true }
    ensures environment { (texts : Texts) (variable : Variable) → IsEnvironment texts
        → compares Equal (text_of texts variable) (text_of texts variable) ≡ true }
{
    a_bare_text_reads_as_its_parts();
    a_piece_reads_as_its_clause();
}
