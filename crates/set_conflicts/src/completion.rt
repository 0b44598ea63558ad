// Which versions at a node complete an earlier conflict.

ghost use Rattle.std.specs.Prelude.{IfOk, IsTrue, []};
ghost use Rattle.search.specs.SetConflicts.{BindsWithin, EachVersion};
ghost use Rattle.search.specs.Table.{places_eq};
ghost use Rattle.set_conflicts.specs.Tied.Covers.{IsBoundOrAt, Covers, IsCompletedBy};

use crate::table_term::TableTerm;
use lists::{Bits, Seq};
use std::alloc::{AllocError, Global};

/// Whether the conflict has a term on the node of this one that lies within it.
fn binds_within(conflict: &[TableTerm], term: &TableTerm) -> bool
    ensures { IsTrue result → BindsWithin places_eq conflict.now term.now }
{
    for own in conflict {
        if term.is_at(own.node(), own.set()) {
            return true;
        }
    }
    false
}

/// Whether a term is bound by the conflict, or is on the node and has all of these places.
fn is_met(conflict: &[TableTerm], node: usize, places: &Bits, term: &TableTerm) -> bool
    ensures { IsTrue result → IsBoundOrAt conflict.now node places.now term.now }
{
    if term.is_at(node, places) {
        return true;
    }
    binds_within(conflict, term)
}

/// Whether the conflict with any of these places at the node contains the earlier one.
fn does_complete(conflict: &[TableTerm], node: usize, places: &Bits, old: &[TableTerm]) -> bool
    ensures { IsTrue result → IsCompletedBy conflict.now node places.now old.now }
{
    for term in old {
        if !is_met(conflict, node, places, term) {
            return false;
        }
    }
    true
}

/// The places that an earlier conflict has at a node, where it has a term there.
fn places_at(old: &[TableTerm], node: usize) -> Option<&Bits> {
    for term in old {
        if term.node() == node {
            return Some(term.set());
        }
    }
    None
}

/// Puts in the places of an earlier conflict at the node, where each of them completes it.
fn cover(
    covered: &mut Bits,
    earlier: &[Seq<TableTerm>],
    conflict: &[TableTerm],
    node: usize,
    at: usize,
) -> Result<(), AllocError>
    requires { Covers earlier.now conflict.now node covered.old }
    ensures { IfOk result (λ _. Covers earlier.now conflict.now node covered.new) }
{
    if at >= earlier.len() {
        return Ok(());
    }
    let old = earlier[at].as_slice();
    if let Some(places) = places_at(old, node) {
        if does_complete(conflict, node, places, old) {
            covered.join(places)?;
        }
    }
    Ok(())
}

/// The places at the node with which the conflict contains one of these earlier ones.
pub fn covered_by(
    alloc: Global,
    earlier: &[Seq<TableTerm>],
    conflict: &[TableTerm],
    node: usize,
    olds: &[usize],
) -> Result<Bits, AllocError>
    ensures { IfOk result (λ covered. Covers earlier.now conflict.now node covered) }
{
    let mut covered = Bits::new(alloc);
    for at in olds {
        cover(&mut covered, earlier, conflict, node, *at)?;
    }
    Ok(covered)
}

/// Whether the conflict contains one of these earlier ones with each version of its term at a
/// place.
pub fn completes_each_version(
    alloc: Global,
    earlier: &[Seq<TableTerm>],
    conflict: &[TableTerm],
    at: usize,
    olds: &[usize],
) -> Result<bool, AllocError>
    ensures { IfOk result
        (λ completes. IsTrue completes → EachVersion places_eq earlier.now conflict.now) }
{
    if at >= conflict.len() {
        return Ok(false);
    }
    let term = &conflict[at];
    let covered = covered_by(alloc, earlier, conflict, term.node(), olds)?;
    Ok(term.set().lies_within(&covered))
}
