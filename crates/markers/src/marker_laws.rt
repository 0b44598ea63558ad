//! Laws of the grammar of markers.

ghost use Rattle.std.specs.Prelude.{◌≡◌, ℕ, List, Option, Ok, Err, true, false};
ghost use Rattle.markers.specs.Environment.{IsEnvironment, Texts, marker_text};
ghost use Rattle.markers.specs.Marker.{Tree, holds, marker_of};
ghost use Rattle.markers.specs.MarkerSpelling.{SpellsMarker};
ghost use Rattle.markers.specs.MarkerDepth.{is_too_deep};
ghost use Rattle.markers.specs.declared.fault.Cause.TheVariants.{MarkerTooDeep};

use crate::laws::a_text_equals_itself;

/// A text reads as a marker exactly where it spells it and its parentheses nest no deeper than they may;
/// where they nest deeper, this is its fault, whatever else may be.
pub fn a_text_reads_as_the_marker_that_it_spells()
    ensures read { (text : List ℕ) (t : Tree)
        → marker_of text ≡ Ok t → (is_too_deep text ≡ false) × SpellsMarker text t }
    ensures found { (text : List ℕ) (t : Tree)
        → is_too_deep text ≡ false → SpellsMarker text t → marker_of text ≡ Ok t }
    ensures deep { (text : List ℕ) → is_too_deep text ≡ true → marker_of text ≡ Err MarkerTooDeep }
{}

/// A text spells at most one marker.
pub fn a_text_spells_one_marker()
    ensures { (text : List ℕ) (t u : Tree) → SpellsMarker text t → SpellsMarker text u → t ≡ u }
{}

/// The marker text of an environment reads as a marker that holds in it, with any extra or none.
pub fn an_environment_meets_its_marker()
    ensures { (texts : Texts) → IsEnvironment texts
        → (t : Tree) × (marker_of (marker_text texts) ≡ Ok t)
        × ((extra : Option (List ℕ)) → holds t texts extra ≡ true) }
{
    a_text_equals_itself();
}
