// Choices by numbers.

use set_refutations::placed::PlacedTerm;

/// A release at a node: the node by its number, and the release by its place among those of the name.
#[derive(Debug, Clone, Copy, PartialEq, Eq, PartialOrd, Ord)]
pub(crate) struct PlacedChoice {
    pub(crate) node: usize,
    pub(crate) place: usize,
}

/// Whether a term is at the node of the choice, and has its release.
pub(crate) fn has(term: &PlacedTerm, choice: PlacedChoice) -> bool {
    term.is_at(choice.node) && term.places.has(choice.place)
}

/// The first of the choices that a term has.
pub(crate) fn choice_among(term: &PlacedTerm, choices: &[PlacedChoice]) -> Option<PlacedChoice> {
    choices.iter().find(|choice| has(term, **choice)).copied()
}

/// Whether it is one of these.
pub(crate) fn is_among(choice: PlacedChoice, choices: &[PlacedChoice]) -> bool {
    choices
        .iter()
        .any(|one| one.node == choice.node && one.place == choice.place)
}

/// Whether each of them is one of the others.
pub(crate) fn are_among(conflict: &[PlacedChoice], choices: &[PlacedChoice]) -> bool {
    conflict.iter().all(|one| is_among(*one, choices))
}
