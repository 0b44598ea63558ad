// The incompatibilities by which candidates were excluded, each recorded with its reason.

use crate::instance::Instance;
use crate::search_state::SearchState;
use crate::terms::single;
use lists::Bits;
use search::{Decision, Table};
use set_conflicts::clash::does_pair_clash;
use set_conflicts::derivation::DerivationCause;
use set_conflicts::places::set_of;
use set_conflicts::reason::Reason;
use set_conflicts::table_term::TableTerm;
use std::alloc::AllocError;

/// The places of a term that a release at another node doesn't refuse.
fn not_refused(
    instance: &Instance<'_>,
    choice: Decision,
    term: &TableTerm,
) -> Result<Bits, AllocError> {
    let mut rest = term.set().clone()?;
    let Some(name) = instance.name_of(term.node()) else {
        return Ok(rest);
    };
    if instance.are_beside(choice.node, term.node()) {
        rest.keep(&set_of(instance.alloc, &[choice.version])?);
    }
    for requirement in instance.table.wants(choice.node, choice.version) {
        if instance.is_on(*requirement, name) {
            if let Some(admitted) = instance.admitted(*requirement) {
                rest.keep(admitted);
            }
        }
    }
    Ok(rest)
}

/// Whether a release clashes with each of these at a node.
fn clashes_with_all(table: &Table, choice: Decision, node: usize, places: &[usize]) -> bool {
    if choice.node >= table.node_count() || node >= table.node_count() {
        return false;
    }
    for place in places {
        if !does_pair_clash(table, choice.node, choice.version, node, *place) {
            return false;
        }
    }
    true
}

/// Whether a release clashes with each place of a term. The first that it doesn't refuse is looked
/// at alone first, since it mostly decides.
fn clashes_with(
    instance: &Instance<'_>,
    choice: Decision,
    term: &TableTerm,
) -> Result<bool, AllocError> {
    let rest = not_refused(instance, choice, term)?;
    let Some(first) = rest.first_from(0) else {
        return Ok(true);
    };
    let node = term.node();
    if !clashes_with_all(instance.table, choice, node, &[first]) {
        return Ok(false);
    }
    let places = rest.places(instance.alloc)?;
    Ok(clashes_with_all(instance.table, choice, node, places.as_slice()))
}

/// The candidates of a node that clash with each place of a term.
fn clashing_with(
    instance: &Instance<'_>,
    node: usize,
    term: &TableTerm,
) -> Result<TableTerm, AllocError> {
    let mut places = Bits::new(instance.alloc);
    for place in instance.candidates(node) {
        let choice = Decision {
            node,
            version: *place,
        };
        if clashes_with(instance, choice, term)? {
            places.insert(*place)?;
        }
    }
    Ok(TableTerm { node, places })
}

/// Records the widest clash by which another node excludes a term.
fn record_clash(
    instance: &Instance<'_>,
    state: &mut SearchState,
    term: &TableTerm,
    by: usize,
) -> Result<usize, AllocError> {
    let one = clashing_with(instance, by, term)?;
    let other = clashing_with(instance, term.node(), &one)?;
    let mut conflict: Vec<TableTerm> = Vec::new(instance.alloc);
    conflict.push(one)?;
    conflict.push(other)?;
    state.record(conflict, Reason::Clash { one: 0, other: 1 })
}

/// Records that the candidates of a node that don't admit themselves are excluded.
fn record_own_clash(
    instance: &Instance<'_>,
    state: &mut SearchState,
    node: usize,
) -> Result<usize, AllocError> {
    let conflict = single(instance.alloc, node, instance.own_clashes(node)?)?;
    state.record(conflict, Reason::Clash { one: 0, other: 0 })
}

/// Records that a line excludes what it doesn't admit of a node.
fn record_line(
    instance: &Instance<'_>,
    state: &mut SearchState,
    node: usize,
    line: usize,
) -> Result<Option<usize>, AllocError> {
    let Some(requirement) = instance.table.lines().get(line).copied() else {
        return Ok(None);
    };
    let refused = instance.refused_by(node, requirement)?;
    let conflict = single(instance.alloc, node, refused)?;
    let at = state.record(conflict, Reason::Line { line, term: 0 })?;
    Ok(Some(at))
}

/// The place of the incompatibility by which a term was excluded, recorded unless it is; nothing
/// for a decision.
pub fn explain(
    instance: &Instance<'_>,
    state: &mut SearchState,
    term: &TableTerm,
    cause: DerivationCause,
) -> Result<Option<usize>, AllocError> {
    match cause {
        DerivationCause::Incompatibility(at) => Ok(Some(at)),
        DerivationCause::Decision => Ok(None),
        DerivationCause::Node(by) => {
            let at = record_clash(instance, state, term, by)?;
            Ok(Some(at))
        }
        DerivationCause::Own => {
            let at = record_own_clash(instance, state, term.node())?;
            Ok(Some(at))
        }
        DerivationCause::Line(line) => record_line(instance, state, term.node(), line),
    }
}
