// A set refutation without what its last conflict doesn't rest on.

use crate::derivation::Derivation;
use crate::exclusion::{Earlier, Exclusion};
use crate::idle_terms::without_idle_terms;
use lists::Bits;
use problems::Problem;
use set_refutations::PlacedRefutation;
use set_refutations::placed::{PlacedConflicts, PlacedTerm, binding};
use std::alloc::{AllocError, Global};

/// What of a conflict the later ones rest on: of each of its terms these releases. Nothing rests on it
/// where it isn't used.
#[derive(Drop)]
struct Share {
    is_used: bool,
    terms: Vec<Bits>,
}

/// The refutation of these conflicts without what the last one doesn't rest on: without conflicts, and in
/// its conflicts without terms and without releases. Whether it is a refutation, its grounds tell.
pub fn narrowed_refutation(
    alloc: Global,
    problem: &Problem<'_>,
    placed: &PlacedConflicts,
    derivations: &[Derivation],
) -> Result<PlacedRefutation, AllocError> {
    let lean = without_idle_terms(alloc, placed.as_slice(), derivations)?;
    let all = Earlier {
        conflicts: lean.as_slice(),
        derivations,
    };
    let mut behind = kept_conflicts(alloc, all)?;
    let mut kept = Vec::with_capacity(alloc, behind.len())?;
    for _ in 0..behind.len() {
        if let Some(conflict) = behind.pop() {
            kept.push(conflict)?;
        }
    }
    PlacedRefutation::of(alloc, problem, placed.with_conflicts(alloc, kept)?)
}

/// What is kept of the conflicts: those on which the last one rests, this first, and in their terms the releases alone
/// that it takes.
fn kept_conflicts(alloc: Global, all: Earlier<'_>) -> Result<Vec<Vec<PlacedTerm>>, AllocError> {
    let mut shares = shares_of(alloc, all.conflicts)?;
    let mut kept = Vec::new(alloc);
    let both = all.conflicts.iter().zip(all.derivations);
    for (at, (conflict, derivation)) in both.enumerate().rev() {
        match shares.pop() {
            Some(share) if share.is_used => {
                let own = terms_over(alloc, conflict.as_slice(), share.terms.as_slice())?;
                let earlier = Earlier {
                    conflicts: all.conflicts,
                    derivations: all.derivations.get(..at).unwrap_or(&[]),
                };
                let rests = exclusions_of(alloc, earlier, own.as_slice(), derivation)?;
                let before = shares.as_mut_slice();
                add_uses(before, all.conflicts, own.as_slice(), rests.as_slice())?;
                kept.push(own)?;
            }
            _ => {}
        }
    }
    Ok(kept)
}

/// Nothing of each conflict but of the last one, which is used whole.
fn shares_of(alloc: Global, conflicts: &[Vec<PlacedTerm>]) -> Result<Vec<Share>, AllocError> {
    let last = conflicts.len().saturating_sub(1);
    let mut shares = Vec::new(alloc);
    for (at, conflict) in conflicts.iter().enumerate() {
        let mut terms = Vec::new(alloc);
        for term in conflict.as_slice() {
            terms.push(if at == last {
                term.places.clone()?
            } else {
                Bits::new(alloc)
            })?;
        }
        shares.push(Share {
            is_used: at == last,
            terms,
        })?;
    }
    Ok(shares)
}

/// A conflict with these releases in its terms.
fn terms_over(
    alloc: Global,
    conflict: &[PlacedTerm],
    shared: &[Bits],
) -> Result<Vec<PlacedTerm>, AllocError> {
    let mut terms = Vec::new(alloc);
    for (term, places) in conflict.iter().zip(shared) {
        terms.push(term.over(places)?)?;
    }
    Ok(terms)
}

/// The earlier conflicts on which one rests by its derivation, each with the releases that it excludes.
fn exclusions_of(
    alloc: Global,
    earlier: Earlier<'_>,
    conflict: &[PlacedTerm],
    derivation: &Derivation,
) -> Result<Vec<Exclusion>, AllocError> {
    let Some(exhausted) = derivation.exhausted() else {
        return Ok(Vec::new(alloc));
    };
    let sought = &exhausted.sought;
    let own = conflict.iter().find(|term| term.is_beside(sought));
    match (exhausted.need, own) {
        (None, Some(term)) => earlier.exclusions(alloc, conflict, term),
        _ => earlier.exclusions(alloc, conflict, sought),
    }
}

/// Adds what a conflict takes of the earlier ones on which it rests.
fn add_uses(
    shares: &mut [Share],
    conflicts: &[Vec<PlacedTerm>],
    conflict: &[PlacedTerm],
    exclusions: &[Exclusion],
) -> Result<(), AllocError> {
    for Exclusion {
        conflict: at,
        places,
    } in exclusions {
        if let (Some(share), Some(old)) = (shares.get_mut(*at), conflicts.get(*at)) {
            add_use(share, old.as_slice(), conflict, places)?;
        }
    }
    Ok(())
}

/// Of a term that the conflict binds, its releases are taken; else those that are excluded.
fn add_use(
    share: &mut Share,
    old: &[PlacedTerm],
    conflict: &[PlacedTerm],
    excluded: &Bits,
) -> Result<(), AllocError> {
    share.is_used = true;
    for (place, term) in old.iter().enumerate() {
        if let Some(taken) = share.terms.get_mut(place) {
            match binding(term, conflict) {
                Some(bound) => taken.join(&bound.places)?,
                None => taken.join(excluded)?,
            }
        }
    }
    Ok(())
}
