// Conflicts without the terms on which they don't rest.

use crate::derivation::Derivation;
use crate::exclusion::Exclusion;
use set_refutations::SetNeed;
use set_refutations::placed::{PlacedTerm, binds};
use std::alloc::{AllocError, Global};

/// The conflicts with those of their terms alone on which their own derivations rest, up to the first one that has
/// none left.
pub fn without_idle_terms(
    alloc: Global,
    conflicts: &[Vec<PlacedTerm>],
    derivations: &[Derivation],
) -> Result<Vec<Vec<PlacedTerm>>, AllocError> {
    let mut lean = Vec::new(alloc);
    for (conflict, derivation) in conflicts.iter().zip(derivations) {
        let terms = busy_terms(alloc, conflict.as_slice(), derivation, lean.as_slice())?;
        let is_last = terms.is_empty();
        lean.push(terms)?;
        if is_last {
            return Ok(lean);
        }
    }
    Ok(lean)
}

/// The terms of a conflict on which its derivation rests, over the earlier conflicts without their idle ones.
fn busy_terms(
    alloc: Global,
    conflict: &[PlacedTerm],
    derivation: &Derivation,
    earlier: &[Vec<PlacedTerm>],
) -> Result<Vec<PlacedTerm>, AllocError> {
    let mut terms = Vec::new(alloc);
    for (place, term) in conflict.iter().enumerate() {
        if rests_on(derivation, place, term, earlier) {
            terms.push(term.over(&term.places)?)?;
        }
    }
    Ok(terms)
}

/// Whether a derivation rests on the term at the place.
fn rests_on(
    derivation: &Derivation,
    place: usize,
    term: &PlacedTerm,
    earlier: &[Vec<PlacedTerm>],
) -> bool {
    match derivation {
        Derivation::Line(_, own) => place == *own,
        Derivation::Clash(one, other) => place == *one || place == *other,
        Derivation::Exhausted(exhausted) => {
            let is_own = match exhausted.need {
                None => term.is_beside(&exhausted.sought),
                Some(SetNeed::Term(at)) => at == place,
                Some(SetNeed::Line(_)) => false,
            };
            is_own || is_bound(term, exhausted.exclusions.as_slice(), earlier)
        }
    }
}

/// Whether the term binds one of an earlier conflict that is told of the derivation.
fn is_bound(term: &PlacedTerm, exclusions: &[Exclusion], earlier: &[Vec<PlacedTerm>]) -> bool {
    exclusions.iter().any(|exclusion| match earlier.get(exclusion.conflict) {
        Some(old) => old.iter().any(|other| binds(term, other)),
        None => false,
    })
}
