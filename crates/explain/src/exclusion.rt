// Which earlier conflicts leave no release at a node.

use crate::derivation::Derivation;
use lists::Bits;
use set_refutations::placed::{PlacedTerm, binding};
use std::alloc::{AllocError, Global};

/// An earlier conflict, and the releases at a node that it excludes beside the other terms of a conflict.
#[derive(Drop)]
pub struct Exclusion {
    pub conflict: usize,
    pub places: Bits,
}

/// The conflicts before one, each with why it follows.
#[derive(Clone, Copy)]
pub struct Earlier<'a> {
    pub conflicts: &'a [Vec<PlacedTerm>],
    pub derivations: &'a [Derivation],
}

/// The releases of those that are wanted at a node, with which the conflict contains the earlier one; nothing where it does with
/// none.
fn excluded_by(
    alloc: Global,
    old: &[PlacedTerm],
    conflict: &[PlacedTerm],
    wanted: &PlacedTerm,
) -> Result<Option<Bits>, AllocError> {
    if !old.iter().all(|term| term.is_beside(wanted) || binding(term, conflict).is_some()) {
        return Ok(None);
    }
    let mut excluded = wanted.places.clone()?;
    for term in old {
        if binding(term, conflict).is_none() {
            excluded.keep(&term.places);
        }
    }
    if excluded.is_empty() {
        return Ok(None);
    }
    Ok(Some(excluded))
}

/// How many releases an exclusion has among these.
fn gain_of(alloc: Global, exclusion: &Exclusion, left: &Bits) -> Result<usize, AllocError> {
    let mut gained = exclusion.places.clone()?;
    gained.keep(left);
    Ok(gained.places(alloc)?.len())
}

/// The exclusion of most of what is left.
fn widest<'a>(
    alloc: Global,
    exclusions: &'a [Exclusion],
    left: &Bits,
) -> Result<Option<&'a Exclusion>, AllocError> {
    let mut best = 0;
    let mut found = None;
    for exclusion in exclusions {
        let gain = gain_of(alloc, exclusion, left)?;
        if gain > best {
            best = gain;
            found = Some(exclusion);
        }
    }
    Ok(found)
}

/// Takes exclusions until nothing is left that they exclude, each with what the ones before it leave.
fn take_widest(
    alloc: Global,
    exclusions: &[Exclusion],
    left: &mut Bits,
    taken: &mut Vec<Exclusion>,
) -> Result<(), AllocError> {
    for _ in 0..exclusions.len() {
        let Some(exclusion) = widest(alloc, exclusions, left)? else {
            return Ok(());
        };
        let mut places = exclusion.places.clone()?;
        places.keep(left);
        left.cut(&places);
        taken.push(Exclusion {
            conflict: exclusion.conflict,
            places,
        })?;
    }
    Ok(())
}

impl Earlier<'_> {
    /// Earlier conflicts that together exclude the releases of a term at its node, as far as they do: each
    /// with those that the ones before it leave. Those that need no step of their own come first. One that
    /// joins others at the node is none of them: these can stand for it.
    pub fn exclusions(
        &self,
        alloc: Global,
        conflict: &[PlacedTerm],
        sought: &PlacedTerm,
    ) -> Result<Vec<Exclusion>, AllocError> {
        let mut plain = Vec::new(alloc);
        let mut others = Vec::new(alloc);
        for (at, (old, derivation)) in self.conflicts.iter().zip(self.derivations).enumerate() {
            if derivation.joins_at(sought) {
                continue;
            }
            if let Some(places) = excluded_by(alloc, old.as_slice(), conflict, sought)? {
                let exclusion = Exclusion {
                    conflict: at,
                    places,
                };
                if derivation.is_plain() {
                    plain.push(exclusion)?;
                } else {
                    others.push(exclusion)?;
                }
            }
        }
        let mut left = sought.places.clone()?;
        let mut taken = Vec::new(alloc);
        take_widest(alloc, plain.as_slice(), &mut left, &mut taken)?;
        take_widest(alloc, others.as_slice(), &mut left, &mut taken)?;
        Ok(taken)
    }
}
