// What a candidate clashes with.

ghost use Rattle.std.specs.Prelude.{◌≡◌, ◌≢◌, ◌<◌, Some, IfOk, MatchOption, length, ℕ, List, [], true, ◌⊎◌};
ghost use Rattle.std.specs.List.{Contains};
ghost use Rattle.search.specs.declared.conflict.NodeChoice.{NodeChoice};
ghost use Rattle.learning_search.specs.Tied.Demanded as spec;
ghost use Rattle.learning_search.specs.Tied.Demanded.{DemandsFit, DemandClashes, AreKnownDemands, WantedFits, WantedClashes, Clashes};
ghost use Rattle.learning_search.specs.Tied.Learned.{FitsBefore, IsLearning, IsPartialSolution, first_at};
ghost use Rattle.search.specs.Ranges.{EachBelow};
ghost use Rattle.search.specs.Table.{rules_of, name_of, in_range};

use crate::decisions::insert;
use crate::demands::{Demand, first_on, row_of};
use crate::partial_solution::PartialSolution;
use search::{Decision, Table};
use std::alloc::{AllocError, Global};

/// The choice that requires something; for a line the candidate itself.
fn source(by: Option<Decision>, candidate: Decision) -> Decision
    ensures { result ≡ spec.source by candidate }
{
    match by {
        None => candidate,
        Some(by) => by,
    }
}

/// The choice with which a candidate clashes for what is required: the one that demands it, the
/// candidate itself where a line does.
fn demand_clash(table: &Table, listed: &[Demand], candidate: Decision) -> Option<Decision>
    requires node { candidate.node < length table.now.nodes }
    requires known { AreKnownDemands (length table.now.requirements) listed.now }
    ensures { MatchOption result (DemandsFit (rules_of table.now) listed.now candidate)
        (λ other. DemandClashes (rules_of table.now) listed.now candidate other) }
{
    let name = table.name_of(candidate.node);
    for demand in listed {
        if table.name_required(demand.requirement) == name
            && !table.does_admit(demand.requirement, candidate.version)
        {
            return Some(source(demand.by, candidate));
        }
    }
    None
}

/// The choice on a requirement's name: the candidate, where it is on its own.
fn choice_on(
    table: &Table,
    taken: &[Option<Decision>],
    candidate: Decision,
    requirement: usize,
) -> Option<Decision>
    requires node { candidate.node < length table.now.nodes }
    requires known { requirement < length table.now.requirements }
    ensures own { (rules_of table.now).name requirement ≡ (rules_of table.now).on candidate.node
        → result ≡ Some candidate }
    ensures other { (rules_of table.now).name requirement ≢ (rules_of table.now).on candidate.node
        → result ≡ first_at taken.now ((rules_of table.now).name requirement) }
{
    let name = table.name_required(requirement);
    if name == table.name_of(candidate.node) {
        return Some(candidate);
    }
    first_on(taken, name)
}

/// The choice that a requirement of a candidate doesn't admit, if there is one on its name.
fn wanted_clash_with(
    table: &Table,
    taken: &[Option<Decision>],
    candidate: Decision,
    requirement: usize,
) -> Option<Decision>
    requires node { candidate.node < length table.now.nodes }
    requires known { requirement < length table.now.requirements }
    ensures { MatchOption result (WantedFits (rules_of table.now) (first_at taken.now) candidate
        requirement) (λ other. WantedClashes (rules_of table.now) (first_at taken.now) candidate
        requirement other) }
{
    let other = choice_on(table, taken, candidate, requirement)?;
    if table.does_admit(requirement, other.version) {
        return None;
    }
    Some(other)
}

/// The choice with which a candidate clashes for what it wants itself.
fn wanted_clash(
    table: &Table,
    taken: &[Option<Decision>],
    candidate: Decision,
    wants: &[usize],
) -> Option<Decision>
    requires node { candidate.node < length table.now.nodes }
    requires known { EachBelow (length table.now.requirements) wants.now }
    ensures { MatchOption result ((r : ℕ) → Contains wants.now r
        → WantedFits (rules_of table.now) (first_at taken.now) candidate r) (λ other. (r : ℕ)
        × Contains wants.now r
        × WantedClashes (rules_of table.now) (first_at taken.now) candidate r other) }
{
    for requirement in wants {
        if let Some(other) = wanted_clash_with(table, taken, candidate, *requirement) {
            return Some(other);
        }
    }
    None
}

/// The choice on the same name that has another version.
fn version_clash(table: &Table, taken: &[Option<Decision>], candidate: Decision) -> Option<Decision>
    requires { candidate.node < length table.now.nodes }
    ensures { MatchOption result ((d : NodeChoice ℕ ℕ)
        → first_at taken.now (name_of table.now candidate.node) ≡ Some d
        → d.version ≡ candidate.version)
        (λ other. (first_at taken.now (name_of table.now candidate.node) ≡ Some other)
        × (other.version ≢ candidate.version)) }
{
    match first_on(taken, table.name_of(candidate.node)) {
        None => None,
        Some(first) => {
            if first.version == candidate.version {
                return None;
            }
            Some(first)
        }
    }
}

/// The choice with which a candidate clashes: one that is assigned, or the candidate itself.
pub fn clash(table: &Table, partial: &PartialSolution, candidate: Decision) -> Option<Decision>
    requires table { in_range table.now ≡ true }
    requires node { candidate.node < length table.now.nodes }
    requires partial { IsPartialSolution table.now partial.now }
    requires learning { (conflicts : List (List (NodeChoice ℕ ℕ)))
        × IsLearning (rules_of table.now) conflicts [] partial.now.assignments.items }
    ensures { MatchOption result (FitsBefore (rules_of table.now) partial.now.assignments.items candidate)
        (λ other. Clashes (rules_of table.now) partial.now.assignments.items candidate other) }
{
    let taken = partial.taken.as_slice();
    if let Some(other) = version_clash(table, taken, candidate) {
        return Some(other);
    }
    let row = row_of(
        partial.demands.rows.as_slice(),
        table.name_of(candidate.node),
    );
    if let Some(other) = demand_clash(table, row, candidate) {
        return Some(other);
    }
    let wants = table.wants(candidate.node, candidate.version);
    wanted_clash(table, taken, candidate, wants)
}

/// The conflict of two choices, or of one.
pub fn conflict_of(
    alloc: Global,
    one: Decision,
    other: Decision,
) -> Result<Vec<Decision>, AllocError>
    ensures one { IfOk result (λ conflict. Contains conflict.items one) }
    ensures other { IfOk result (λ conflict. Contains conflict.items other) }
    ensures only { IfOk result (λ conflict. (c : NodeChoice ℕ ℕ) → Contains conflict.items c
        → (c ≡ one) ⊎ (c ≡ other)) }
{
    let mut conflict = Vec::new(alloc);
    conflict.push(other)?;
    insert(&mut conflict, one)?;
    Ok(conflict)
}
