// Unit propagation: what follows from what is left.

use crate::instance::Instance;
use crate::propagation::Conflict;
use crate::search_state::SearchState;
use crate::terms::term_on;
use lists::{Bits, Seq};
use set_conflicts::derivation::DerivationCause;
use set_conflicts::domains::Domains;
use set_conflicts::table_term::TableTerm;
use std::alloc::{AllocError, Global};

/// Excludes at each node of a requirement's name what it doesn't admit.
fn exclude_refused(
    instance: &Instance<'_>,
    state: &mut SearchState,
    requirement: usize,
    cause: DerivationCause,
) -> Result<(), AllocError> {
    for node in instance.nodes_on(requirement) {
        let refused = instance.refused_by(*node, requirement)?;
        state.exclude(*node, &refused, cause)?;
    }
    Ok(())
}

/// Makes the nodes of a requirement needed.
fn need_all(
    instance: &Instance<'_>,
    state: &mut SearchState,
    requirement: usize,
    cause: DerivationCause,
) -> Result<(), AllocError> {
    if requirement >= instance.table.requirement_count() {
        return Ok(());
    }
    let required = instance.table.requirement(requirement);
    state.need(instance.alloc, required.node, cause)?;
    for node in required.more.as_slice() {
        state.need(instance.alloc, *node, cause)?;
    }
    Ok(())
}

/// Derives what the lines need and refuse.
fn propagate_lines(instance: &Instance<'_>, state: &mut SearchState) -> Result<(), AllocError> {
    let lines = instance.table.lines();
    for at in 0..lines.len() {
        need_all(instance, state, lines[at], DerivationCause::Line(at))?;
        exclude_refused(instance, state, lines[at], DerivationCause::Line(at))?;
    }
    Ok(())
}

/// Derives what the lines need and refuse, and excludes candidates that don't admit themselves.
pub fn propagate_table(instance: &Instance<'_>, state: &mut SearchState) -> Result<(), AllocError> {
    propagate_lines(instance, state)?;
    for node in 0..instance.table.node_count() {
        let own = instance.own_clashes(node)?;
        state.exclude(node, &own, DerivationCause::Own)?;
    }
    Ok(())
}

/// The one place of a set, if it has just one.
fn only_one(set: &Bits) -> Option<usize> {
    let first = set.first_from(0)?;
    match set.first_from(first.wrapping_add(1)) {
        None => Some(first),
        Some(_) => None,
    }
}

/// Excludes at the other nodes of the name what isn't left of this one.
fn exclude_beside(
    instance: &Instance<'_>,
    state: &mut SearchState,
    node: usize,
) -> Result<(), AllocError> {
    let left = state.assignment.left_of(instance.alloc, node)?;
    for other in instance.nodes_beside(node) {
        if *other != node {
            let mut gone = state.assignment.left_of(instance.alloc, *other)?;
            gone.cut(&left);
            state.exclude(*other, &gone, DerivationCause::Node(node))?;
        }
    }
    Ok(())
}

/// Derives what the one release that is left of a node wants.
fn propagate_release(
    instance: &Instance<'_>,
    state: &mut SearchState,
    node: usize,
    place: usize,
) -> Result<(), AllocError> {
    for requirement in instance.table.wants(node, place) {
        need_all(instance, state, *requirement, DerivationCause::Node(node))?;
        exclude_refused(instance, state, *requirement, DerivationCause::Node(node))?;
    }
    Ok(())
}

/// Whether a node is needed, and a requirement admits nothing that is left of it.
fn is_shut(instance: &Instance<'_>, domains: &Domains, node: usize, requirement: usize) -> bool {
    match (domains.needed_set(node), instance.admitted(requirement)) {
        (Some(left), Some(admitted)) => !left.meets(admitted),
        _ => false,
    }
}

/// A node of the requirement's name that is needed, and of which it admits nothing that is left.
fn shut_node(instance: &Instance<'_>, domains: &Domains, requirement: usize) -> Option<usize> {
    for node in instance.nodes_on(requirement) {
        if is_shut(instance, domains, *node, requirement) {
            return Some(*node);
        }
    }
    None
}

/// Whether a requirement is on the name, if one is given.
fn is_looked_at(instance: &Instance<'_>, requirement: usize, on: Option<usize>) -> bool {
    match on {
        None => true,
        Some(name) => instance.is_on(requirement, name),
    }
}

/// Another node for which a release can't stand, for something that it wants, on this name if one
/// is given.
fn shut_for(
    instance: &Instance<'_>,
    domains: &Domains,
    node: usize,
    place: usize,
    on: Option<usize>,
) -> Option<usize> {
    for requirement in instance.table.wants(node, place) {
        if is_looked_at(instance, *requirement, on) {
            if let Some(other) = shut_node(instance, domains, *requirement) {
                if other != node {
                    return Some(other);
                }
            }
        }
    }
    None
}

/// Adds a place to those that are excluded by a node.
fn gather(
    alloc: Global,
    cuts: &mut Vec<TableTerm>,
    node: usize,
    place: usize,
) -> Result<(), AllocError> {
    for at in 0..cuts.len() {
        if let Some(cut) = cuts.get_mut(at) {
            if cut.node == node {
                cut.places.insert(place)?;
                return Ok(());
            }
        }
    }
    let mut places = Bits::new(alloc);
    places.insert(place)?;
    cuts.push(TableTerm { node, places })?;
    Ok(())
}

/// The candidates of a node that want something of which nothing that is left is admitted: for each
/// node that isn't admitted those that it excludes.
fn shut_places(
    instance: &Instance<'_>,
    state: &SearchState,
    node: usize,
    on: Option<usize>,
) -> Result<Vec<TableTerm>, AllocError> {
    let left = state.assignment.left_of(instance.alloc, node)?;
    let places: Seq<usize> = left.places(instance.alloc)?;
    let mut cuts: Vec<TableTerm> = Vec::new(instance.alloc);
    for place in places.as_slice() {
        if let Some(by) = shut_for(instance, state.assignment.domains(), node, *place, on) {
            gather(instance.alloc, &mut cuts, by, *place)?;
        }
    }
    Ok(cuts)
}

/// Excludes candidates of a node that want something of which nothing that is left is admitted.
fn prune(
    instance: &Instance<'_>,
    state: &mut SearchState,
    node: usize,
    on: Option<usize>,
) -> Result<(), AllocError> {
    for cut in shut_places(instance, state, node, on)? {
        state.exclude(node, cut.set(), DerivationCause::Node(cut.node()))?;
    }
    Ok(())
}

/// Prunes the needed nodes that want something on the name of this one.
fn prune_requirers(
    instance: &Instance<'_>,
    state: &mut SearchState,
    node: usize,
) -> Result<(), AllocError> {
    let Some(name) = instance.name_of(node) else {
        return Ok(());
    };
    for other in instance.requirers(name) {
        if *other != node && state.assignment.domains().is_needed(*other) {
            prune(instance, state, *other, Some(name))?;
        }
    }
    Ok(())
}

/// How an incompatibility stands to the partial assignment.
#[derive(Debug, Clone, Copy)]
enum Relation {
    /// All terms are satisfied.
    Satisfied,
    /// All terms are satisfied but the one at this place.
    AlmostSatisfied(usize),
    Inconclusive,
}

/// How terms stand to what is left.
fn relation_to(domains: &Domains, terms: &[TableTerm]) -> Relation {
    let mut open: Option<usize> = None;
    for at in 0..terms.len() {
        if !domains.do_satisfy(&terms[at]) {
            if open.is_some() {
                return Relation::Inconclusive;
            }
            open = Some(at);
        }
    }
    match open {
        None => Relation::Satisfied,
        Some(at) => Relation::AlmostSatisfied(at),
    }
}

/// Propagates a recorded incompatibility: where all terms but one are satisfied, its places are
/// excluded.
fn propagate_one(state: &mut SearchState, at: usize) -> Result<(), AllocError> {
    let Some(terms) = state.terms_at(at) else {
        return Ok(());
    };
    match relation_to(state.assignment.domains(), terms) {
        Relation::Inconclusive => {}
        Relation::Satisfied => state.propagation.fail(Conflict::Incompatibility(at)),
        Relation::AlmostSatisfied(open) => {
            let Some(term) = terms.get(open) else {
                return Ok(());
            };
            let cut = term.copied()?;
            state.exclude(cut.node(), cut.set(), DerivationCause::Incompatibility(at))?;
        }
    }
    Ok(())
}

/// Whether a recorded incompatibility has a term on the node, if one is given.
fn has_term(state: &SearchState, at: usize, node: Option<usize>) -> bool {
    let Some(node) = node else {
        return true;
    };
    match state.terms_at(at) {
        Some(terms) => term_on(terms, node).is_some(),
        None => false,
    }
}

/// Propagates the learned incompatibilities; those with a term on the node, where one is given.
pub fn propagate_learned(state: &mut SearchState, node: Option<usize>) -> Result<(), AllocError> {
    for number in 0..state.propagation.learned().len() {
        if let Some(at) = state.propagation.learned().get(number).copied() {
            if has_term(state, at, node) && state.propagation.conflict().is_none() {
                propagate_one(state, at)?;
            }
        }
    }
    Ok(())
}

/// Propagates from a node of which less is left, or which is needed now.
pub fn propagate(
    instance: &Instance<'_>,
    state: &mut SearchState,
    node: usize,
) -> Result<(), AllocError> {
    if !state.assignment.domains().is_needed(node) {
        return Ok(());
    }
    exclude_beside(instance, state, node)?;
    let one = match state.assignment.domains().left(node) {
        Some(left) => only_one(left),
        None => None,
    };
    match one {
        Some(place) => propagate_release(instance, state, node, place)?,
        None => prune(instance, state, node, None)?,
    }
    prune_requirers(instance, state, node)?;
    propagate_learned(state, Some(node))?;
    Ok(())
}
