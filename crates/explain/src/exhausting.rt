// Which earlier conflicts can leave nothing of a node beside a conflict.

use lists::Bits;
use problems::Problem;
use set_refutations::placed::{PlacedTerm, Unbound, candidate_places, unbound_in};
use std::alloc::{AllocError, Global};

/// A node, the releases that some earlier conflicts exclude there beside a conflict, and the places of these.
#[derive(Drop)]
struct Excluded {
    term: PlacedTerm,
    conflicts: Vec<usize>,
}

/// For each earlier conflict whether it can be one of those by which nothing is left of a node beside this conflict. No other
/// one is needed for its ground.
pub fn exhausting(
    alloc: Global,
    problem: &Problem<'_>,
    earlier: &[Vec<PlacedTerm>],
    own: &[PlacedTerm],
) -> Result<Vec<bool>, AllocError> {
    let mut marks = vec![in alloc; false; earlier.len()]?;
    let mut nodes: Vec<Excluded> = Vec::new(alloc);
    for (at, old) in earlier.iter().enumerate() {
        match unbound_in(old.as_slice(), own) {
            Unbound::Nothing => mark(&mut marks, at),
            Unbound::One(term) => add(alloc, &mut nodes, term, at)?,
            Unbound::Several => {}
        }
    }
    for excluded in nodes.as_slice() {
        if is_exhausted(alloc, problem, excluded, own)? {
            for at in excluded.conflicts.as_slice() {
                mark(&mut marks, *at);
            }
        }
    }
    Ok(marks)
}

fn mark(marks: &mut [bool], place: usize) {
    if let Some(marked) = marks.get_mut(place) {
        *marked = true;
    }
}

/// Adds what a conflict excludes at the node of a term.
fn add(
    alloc: Global,
    nodes: &mut Vec<Excluded>,
    term: &PlacedTerm,
    conflict: usize,
) -> Result<(), AllocError> {
    for excluded in nodes.as_mut_slice() {
        if excluded.term.is_beside(term) {
            excluded.term.places.join(&term.places)?;
            return Ok(excluded.conflicts.push(conflict)?);
        }
    }
    let mut conflicts = Vec::new(alloc);
    conflicts.push(conflict)?;
    let term = term.over(&term.places)?;
    nodes.push(Excluded { term, conflicts })?;
    Ok(())
}

/// Whether all candidates of a node are excluded there, or all releases of a term of the conflict on it.
fn is_exhausted(
    alloc: Global,
    problem: &Problem<'_>,
    excluded: &Excluded,
    own: &[PlacedTerm],
) -> Result<bool, AllocError> {
    if let Some(term) = own.iter().find(|term| term.is_beside(&excluded.term)) {
        if term.places.lies_within(&excluded.term.places) {
            return Ok(true);
        }
    }
    let candidates = candidate_places(alloc, problem, &excluded.term.node.name)?;
    Ok(candidates.lies_within(&excluded.term.places))
}
