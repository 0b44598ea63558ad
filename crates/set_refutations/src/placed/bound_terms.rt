// Which terms of an earlier conflict another conflict binds.

use crate::placed::placed_term::PlacedTerm;

/// Whether a term is on the node of an earlier conflict's term, and has nothing outside of it.
pub fn binds(own: &PlacedTerm, term: &PlacedTerm) -> bool {
    own.is_beside(term) && own.places.lies_within(&term.places)
}

/// The term of a conflict that binds an earlier one's term.
pub fn binding<'c>(term: &PlacedTerm, conflict: &'c [PlacedTerm]) -> Option<&'c PlacedTerm> {
    conflict.iter().find(|own| binds(own, term))
}

/// The terms of an earlier conflict that another one doesn't bind.
#[derive(Clone, Copy)]
pub enum Unbound<'a> {
    /// Each is bound.
    Nothing,
    /// They are on one node: the first of them.
    One(&'a PlacedTerm),
    /// They are on several nodes.
    Several,
}

/// Those of these terms that the conflict doesn't bind.
pub fn unbound_in<'a>(old: &'a [PlacedTerm], own: &[PlacedTerm]) -> Unbound<'a> {
    let mut found = Unbound::Nothing;
    for term in old {
        if binding(term, own).is_none() {
            match found {
                Unbound::Nothing => found = Unbound::One(term),
                Unbound::One(first) if first.is_beside(term) => {}
                _ => return Unbound::Several,
            }
        }
    }
    found
}
