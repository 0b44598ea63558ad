// Conflict resolution: an incompatibility is derived from a conflict, until it says what to go back
// to.

use crate::explanation::explain;
use crate::instance::Instance;
use crate::partial_assignment::PartialAssignment;
use crate::propagation::Conflict;
use crate::search_state::{BUDGET, SearchState};
use crate::terms::{copied, intersect, intersect_all, set_on, single, term_on};
use lists::{Bits, Seq};
use set_conflicts::derivation::DerivationCause;
use set_conflicts::need::{NoneLeft, does_want};
use set_conflicts::reason::Reason;
use set_conflicts::table_term::TableTerm;
use std::alloc::{AllocError, Global};

/// An incompatibility that all derivations so far satisfy, and its place among those that were
/// recorded.
#[derive(Drop)]
pub struct Resolvent {
    pub terms: Vec<TableTerm>,
    pub at: usize,
}

/// The incompatibility of a conflict.
fn conflicting(
    instance: &Instance<'_>,
    state: &mut SearchState,
    conflict: Conflict,
) -> Result<Option<Resolvent>, AllocError> {
    let alloc: Global = instance.alloc;
    match conflict {
        Conflict::Incompatibility(at) => {
            let terms = match state.terms_at(at) {
                Some(terms) => copied(alloc, terms)?,
                None => return Ok(None),
            };
            Ok(Some(Resolvent { terms, at }))
        }
        Conflict::Node(node) => {
            let terms = single(alloc, node, Bits::new(alloc))?;
            let olds = Seq::new(alloc);
            let recorded = copied(alloc, terms.as_slice())?;
            let at = state.record(recorded, Reason::EachVersion { term: 0, olds })?;
            Ok(Some(Resolvent { terms, at }))
        }
    }
}

/// What covers candidates of a node: the terms on other nodes, the candidates that are covered, and
/// the incompatibilities that do it.
#[derive(Drop)]
struct Cover {
    node: usize,
    terms: Vec<TableTerm>,
    covered: Bits,
    olds: Vec<usize>,
}

impl Cover {
    /// What an incompatibility covers at a node.
    fn of(alloc: Global, resolvent: Resolvent, node: usize) -> Result<Cover, AllocError> {
        let mut cover = Cover {
            node,
            terms: Vec::new(alloc),
            covered: Bits::new(alloc),
            olds: Vec::new(alloc),
        };
        cover.add(alloc, resolvent.terms.as_slice(), resolvent.at)?;
        Ok(cover)
    }

    /// Covers what an incompatibility has at the node.
    fn add(&mut self, alloc: Global, terms: &[TableTerm], at: usize) -> Result<(), AllocError> {
        let own = intersect_all(alloc, &mut self.terms, terms, self.node)?;
        self.covered.join(&own)?;
        self.olds.push(at)?;
        Ok(())
    }
}

/// What one of the derivations excluded of a cover's node that isn't covered, and why; nothing
/// where it didn't come before a place of the trail.
fn not_covered(
    assignment: &PartialAssignment,
    cover: &Cover,
    number: usize,
    before: usize,
) -> Result<Option<(TableTerm, DerivationCause)>, AllocError> {
    let Some(derivation) = assignment.exclusion(cover.node, number, before) else {
        return Ok(None);
    };
    let mut term = derivation.term.copied()?;
    term.places.cut(&cover.covered);
    if term.places.is_empty() {
        return Ok(None);
    }
    Ok(Some((term, derivation.cause)))
}

/// Covers all candidates of a needed node, with the explanations of what was excluded there before
/// a place of the trail; true if it could.
fn cover_all(
    instance: &Instance<'_>,
    state: &mut SearchState,
    cover: &mut Cover,
    before: usize,
) -> Result<bool, AllocError> {
    let count = state.assignment.exclusion_count(cover.node);
    for passed in 0..count {
        let number = count - 1 - passed;
        if let Some((term, cause)) = not_covered(&state.assignment, cover, number, before)? {
            let Some(at) = explain(instance, state, &term, cause)? else {
                return Ok(false);
            };
            if let Some(terms) = state.terms_at(at) {
                cover.add(instance.alloc, terms, at)?;
            }
        }
    }
    Ok(true)
}

/// The candidates of a node that want another node.
fn wanting(instance: &Instance<'_>, by: usize, node: usize) -> Result<Bits, AllocError> {
    let mut set = Bits::new(instance.alloc);
    for place in instance.candidates(by) {
        if does_want(instance.table, by, *place, node) {
            set.insert(*place)?;
        }
    }
    Ok(set)
}

/// Resolves with what needs a node all of whose candidates are covered, by what was excluded before
/// a place of the trail and by the incompatibility itself.
fn without_need(
    instance: &Instance<'_>,
    state: &mut SearchState,
    mut cover: Cover,
    cause: DerivationCause,
    before: usize,
) -> Result<Option<Resolvent>, AllocError> {
    if !cover_all(instance, state, &mut cover, before)? {
        return Ok(None);
    }
    let Cover {
        node,
        mut terms,
        covered: _,
        olds,
    } = cover;
    let mut by = None;
    if let DerivationCause::Node(needing) = cause {
        let set = wanting(instance, needing, node)?;
        intersect(&mut terms, needing, &set)?;
        by = term_on(terms.as_slice(), needing);
    }
    let recorded = copied(instance.alloc, terms.as_slice())?;
    let olds = Seq::from_vec(olds);
    let at = state.record(recorded, Reason::NoneLeft(NoneLeft { node, by, olds }))?;
    Ok(Some(Resolvent { terms, at }))
}

/// Resolves with the explanation of what was excluded.
fn without_exclusion(
    instance: &Instance<'_>,
    state: &mut SearchState,
    resolvent: Resolvent,
    mut cut: TableTerm,
    cause: DerivationCause,
) -> Result<Option<Resolvent>, AllocError> {
    let alloc: Global = instance.alloc;
    cut.places
        .cut(&set_on(alloc, resolvent.terms.as_slice(), cut.node)?);
    let Some(explanation) = explain(instance, state, &cut, cause)? else {
        return Ok(None);
    };
    let mut terms = copied(alloc, resolvent.terms.as_slice())?;
    let more = match state.terms_at(explanation) {
        Some(others) => intersect_all(alloc, &mut terms, others, cut.node)?,
        None => return Ok(None),
    };
    let Some(term) = term_on(terms.as_slice(), cut.node) else {
        return Ok(None);
    };
    if let Some(joined) = terms.get_mut(term) {
        joined.places.join(&more)?;
    }
    let mut olds: Vec<usize> = Vec::new(alloc);
    olds.push(resolvent.at)?;
    olds.push(explanation)?;
    let recorded = copied(alloc, terms.as_slice())?;
    let olds = Seq::from_vec(olds);
    let at = state.record(recorded, Reason::EachVersion { term, olds })?;
    Ok(Some(Resolvent { terms, at }))
}

/// Resolves with the cause of the derivation at a place of the trail.
fn resolve(
    instance: &Instance<'_>,
    state: &mut SearchState,
    resolvent: Resolvent,
    place: usize,
) -> Result<Option<Resolvent>, AllocError> {
    let Some(derivation) = state.assignment.trail().get(place) else {
        return Ok(None);
    };
    let cause = derivation.cause;
    if derivation.is_need {
        let cover = Cover::of(instance.alloc, resolvent, derivation.term.node())?;
        let made = without_need(instance, state, cover, cause, place)?;
        return Ok(made);
    }
    let cut = derivation.term.copied()?;
    without_exclusion(instance, state, resolvent, cut, cause)
}

/// From where on the trail the terms of an incompatibility are satisfied: all of them, and all but
/// the last one, which is at a place.
#[derive(Debug, Clone, Copy)]
struct Satisfiers {
    satisfier: Option<usize>,
    previous: Option<usize>,
    term: usize,
}

/// Whether a place of the trail is behind another; nothing stands for its beginning.
fn is_later(one: Option<usize>, other: Option<usize>) -> bool {
    match (one, other) {
        (Some(one), Some(other)) => one > other,
        (Some(_), None) => true,
        (None, _) => false,
    }
}

/// The satisfier of an incompatibility, and the previous satisfier.
fn satisfiers_of(instance: &Instance<'_>, state: &SearchState, terms: &[TableTerm]) -> Satisfiers {
    let mut found = Satisfiers {
        satisfier: None,
        previous: None,
        term: 0,
    };
    for at in 0..terms.len() {
        let from = state.assignment.satisfier(instance, &terms[at]);
        if is_later(from, found.satisfier) {
            found = Satisfiers {
                satisfier: from,
                previous: found.satisfier,
                term: at,
            };
        } else if is_later(from, found.previous) {
            found.previous = from;
        }
    }
    found
}

/// Whether an incompatibility can exclude something once the last decisions are taken back: one
/// term alone is satisfied since the last of them.
fn is_resolved(state: &SearchState, terms: &[TableTerm], found: Satisfiers) -> bool {
    let Some(satisfier) = found.satisfier else {
        return true;
    };
    match state.assignment.trail().get(satisfier) {
        None => return true,
        Some(derivation) => {
            if let DerivationCause::Decision = derivation.cause {
                return true;
            }
        }
    }
    let has_places = match terms.get(found.term) {
        Some(term) => !term.set().is_empty(),
        None => false,
    };
    let level = state.assignment.decision_level(found.satisfier);
    has_places && state.assignment.decision_level(found.previous) < level
}

/// Derives an incompatibility from a conflict, until it can exclude something or is empty.
fn resolved(
    instance: &Instance<'_>,
    state: &mut SearchState,
    conflict: Conflict,
) -> Result<Option<Resolvent>, AllocError> {
    let Some(first) = conflicting(instance, state, conflict)? else {
        return Ok(None);
    };
    let mut resolvent = first;
    for _ in 0..BUDGET {
        let found = satisfiers_of(instance, state, resolvent.terms.as_slice());
        if resolvent.terms.is_empty() || is_resolved(state, resolvent.terms.as_slice(), found) {
            return Ok(Some(resolvent));
        }
        let Some(satisfier) = found.satisfier else {
            return Ok(None);
        };
        let Some(next) = resolve(instance, state, resolvent, satisfier)? else {
            return Ok(None);
        };
        resolvent = next;
    }
    Ok(None)
}

/// What a conflict leads to.
#[derive(Debug, Clone, Copy)]
pub enum Resolution {
    /// The decision level to go back to, where the incompatibility at a place excludes something.
    Backjump { level: usize, learned: usize },
    /// There is no solution.
    Refuted,
    GaveUp,
}

/// Resolves a conflict.
pub fn resolution_of(
    instance: &Instance<'_>,
    state: &mut SearchState,
    conflict: Conflict,
) -> Result<Resolution, AllocError> {
    let Some(resolvent) = resolved(instance, state, conflict)? else {
        return Ok(Resolution::GaveUp);
    };
    if resolvent.terms.is_empty() {
        return Ok(Resolution::Refuted);
    }
    let found = satisfiers_of(instance, state, resolvent.terms.as_slice());
    let level = state.assignment.decision_level(found.satisfier);
    if level == 0 {
        return Ok(Resolution::GaveUp);
    }
    Ok(Resolution::Backjump {
        level: level - 1,
        learned: resolvent.at,
    })
}
