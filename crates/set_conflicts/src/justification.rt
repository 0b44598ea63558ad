// Whether what a search derives is so in each solution.

ghost use Rattle.std.specs.Prelude.{◌≡◌, ℕ, [], List, IfOk, IsTrue, true};
ghost use Rattle.search.specs.SetConflicts.{EachSetFollows};
ghost use Rattle.search.specs.Solutions.{Pin};
ghost use Rattle.search.specs.Table.{in_range, places_eq, rules_of};
ghost use Rattle.search.specs.Tied.Front.{IsFrontOf};
ghost use Rattle.search.specs.Tied.Search.{pins_of};
ghost use Rattle.search.specs.declared.parts.Frame.{Frame};
ghost use Rattle.set_conflicts.specs.Tied.Domains.{Cuts, Excludes, HoldsBut, Keeps, Needs};

use crate::derivation::{Derivation, DerivationCause};
use crate::domains::Domains;
use crate::need::{do_lines_need, does_each_want};
use crate::reason::{Reason, follows};
use crate::refutation::Incompatibility;
use crate::table_term::TableTerm;
use lists::Seq;
use search::{Front, Table};
use std::alloc::{AllocError, Global};

/// Whether a term is satisfied, or is on the node of a cut and has all of its places.
fn does_hold_but(domains: &Domains, term: &TableTerm, cut: &TableTerm) -> bool
    ensures { IsTrue result → HoldsBut domains.now cut.now.node cut.now.versions term.now }
{
    if term.does_include(cut) {
        return true;
    }
    domains.do_satisfy(term)
}

/// Whether each term of a conflict is satisfied, or is on the node of a cut and has all of its
/// places.
fn does_cut(domains: &Domains, conflict: &[TableTerm], cut: &TableTerm) -> bool
    ensures { IsTrue result → Cuts domains.now cut.now.node cut.now.versions conflict.now }
{
    for term in conflict {
        if !does_hold_but(domains, term, cut) {
            return false;
        }
    }
    true
}

/// Whether a recorded conflict excludes these places at their node.
pub fn is_cut_by(
    table: &Table,
    recorded: &[Seq<TableTerm>],
    domains: &Domains,
    at: usize,
    cut: &TableTerm,
) -> bool
    requires known { in_range table.now ≡ true }
    requires each { EachSetFollows (rules_of table.now) places_eq [] recorded.now }
    ensures { IsTrue result → (pins : List (Pin ℕ ℕ)) → Keeps (rules_of table.now) pins domains.now
        → Excludes (rules_of table.now) pins cut.now.node cut.now.versions }
{
    if at >= recorded.len() {
        return false;
    }
    does_cut(domains, recorded[at].as_slice(), cut)
}

/// Whether a name is walked, with a place that isn't one of those that are cut.
pub fn is_passed_over(table: &Table, front: &Front, cut: &TableTerm) -> bool
    ensures { IsTrue result → (frames : List Frame) → IsFrontOf table.now frames front.now
        → Excludes (rules_of table.now) (pins_of frames) cut.now.node cut.now.versions }
{
    if cut.node() >= table.node_count() {
        return false;
    }
    match front.taken_on(table.name_of(cut.node())) {
        None => false,
        Some(place) => !cut.set().has(place),
    }
}

/// Why a derivation's conflict follows; nothing for a decision and a recorded conflict.
fn reason_for(cause: DerivationCause) -> Option<Reason> {
    match cause {
        DerivationCause::Line(line) => Some(Reason::Line { line, term: 0 }),
        DerivationCause::Own => Some(Reason::Clash { one: 0, other: 0 }),
        DerivationCause::Node(_) => Some(Reason::Clash { one: 0, other: 1 }),
        DerivationCause::Incompatibility(_) | DerivationCause::Decision => None,
    }
}

/// The terms of a derivation's conflict: what it excludes, and what is left of the node by which it
/// does.
fn conflict_of(
    alloc: Global,
    domains: &Domains,
    derivation: &Derivation,
) -> Result<Vec<TableTerm>, AllocError> {
    let mut conflict: Vec<TableTerm> = Vec::new(alloc);
    conflict.push(derivation.term.copied()?)?;
    let DerivationCause::Node(node) = derivation.cause else {
        return Ok(conflict);
    };
    if let Some(left) = domains.needed_set(node) {
        let places = left.clone()?;
        conflict.push(TableTerm { node, places })?;
    }
    Ok(conflict)
}

/// The incompatibility by which places are excluded; nothing for a decision and a recorded one.
fn incompatibility_of(
    alloc: Global,
    domains: &Domains,
    derivation: &Derivation,
) -> Result<Option<Incompatibility>, AllocError> {
    let Some(reason) = reason_for(derivation.cause) else {
        return Ok(None);
    };
    let conflict = conflict_of(alloc, domains, derivation)?;
    Ok(Some(Incompatibility {
        conflict: Seq::from_vec(conflict),
        reason,
    }))
}

/// Whether a conflict that follows from the recorded ones excludes these places at their node.
pub fn is_derived(
    alloc: Global,
    table: &Table,
    recorded: &[Seq<TableTerm>],
    domains: &Domains,
    derivation: &Derivation,
) -> Result<bool, AllocError>
    requires known { in_range table.now ≡ true }
    requires each { EachSetFollows (rules_of table.now) places_eq [] recorded.now }
    ensures { IfOk result (λ is_derived. IsTrue is_derived → (pins : List (Pin ℕ ℕ))
        → Keeps (rules_of table.now) pins domains.now
        → Excludes (rules_of table.now) pins derivation.now.term.node derivation.now.term.versions) }
{
    let Some(made) = incompatibility_of(alloc, domains, derivation)? else {
        return Ok(false);
    };
    let conflict = made.conflict.as_slice();
    if !does_cut(domains, conflict, &derivation.term) {
        return Ok(false);
    }
    let follows = follows(alloc, table, recorded, conflict, &made.reason)?;
    Ok(follows)
}

/// Whether a node is needed, and with each place that is left there its name's release wants the
/// other node.
fn does_want(
    alloc: Global,
    table: &Table,
    domains: &Domains,
    by: usize,
    node: usize,
) -> Result<bool, AllocError>
    requires { in_range table.now ≡ true }
    ensures { IfOk result (λ needed. IsTrue needed → (pins : List (Pin ℕ ℕ))
        → Keeps (rules_of table.now) pins domains.now → Needs (rules_of table.now) pins node) }
{
    let Some(set) = domains.needed_set(by) else {
        return Ok(false);
    };
    let places = set.places(alloc)?;
    Ok(does_each_want(table, by, places.as_slice(), node))
}

/// Whether each solution that has what is walked needs the node.
pub fn is_needed_for(
    alloc: Global,
    table: &Table,
    domains: &Domains,
    node: usize,
    cause: DerivationCause,
) -> Result<bool, AllocError>
    requires { in_range table.now ≡ true }
    ensures { IfOk result (λ needed. IsTrue needed → (pins : List (Pin ℕ ℕ))
        → Keeps (rules_of table.now) pins domains.now → Needs (rules_of table.now) pins node) }
{
    match cause {
        DerivationCause::Line(_) => Ok(do_lines_need(table, node)),
        DerivationCause::Node(by) => does_want(alloc, table, domains, by, node),
        _ => Ok(false),
    }
}
