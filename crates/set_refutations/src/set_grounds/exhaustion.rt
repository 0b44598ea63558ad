// Nodes that are needed and for which no candidate is left.

ghost use Rattle.std.specs.Prelude.{◌≡◌, ◌&&◌, MatchOption, None, Some, false, find, true};
ghost use Rattle.std.specs.List.{Contains, list_all, list_any};
ghost use Rattle.std.specs.Option.{option_copied};
ghost use Rattle.search.specs.SetConflicts.{NoCandidateLeft, SetsClash};
ghost use Rattle.set_refutations.specs.Grounds.{IsSetGround};
ghost use Rattle.problems.specs.Tied.NodeEquality.{is_node};
ghost use Rattle.problems.specs.Rules.{bare, counts, nodes_of, rules_of, same_version, wants, with_extra};
ghost use Rattle.set_refutations.specs.Tied.SetCases as spec;

use crate::earlier_sets::EarlierSets;
use crate::set_ground::{SetGround, SetNeed};
use crate::set_grounds::completion::each_release_completes;
use crate::set_refutation::SetTerm;
use pep440::Version;
use pep508::{Name, Requirement};
use problems::Problem;
use problems::parts::{LentNode, counts};

/// Whether no candidate is left for a node.
fn none_left(
    problem: &Problem<'_>,
    earlier: &EarlierSets<'_>,
    conflict: &[SetTerm],
    node: &LentNode<'_>,
) -> bool
    ensures { result ≡ spec.none_left problem.now earlier.now conflict.now node.now }
{
    each_release_completes(earlier, conflict, node, problem.eligible(node.name))
}

/// Whether the node is that of the name with one of the extras.
fn has_extra(name: &Name, extras: &[Name], node: &LentNode<'_>) -> bool
    ensures { result ≡ list_any
        (λ extra. is_node (with_extra name.now extra) node.now.name node.now.extra)
        extras.now }
{
    extras.iter().any(|extra| node.is_of(name, Some(extra)))
}

/// Whether the node is that of the requirement's name without an extra.
fn is_bare(wanted: &Requirement, node: &LentNode<'_>) -> bool
    ensures { result ≡ is_node (bare wanted.now.name) node.now.name node.now.extra }
{
    node.is_of(wanted.name(), None)
}

/// Whether a requirement needs the node.
fn needs(wanted: &Requirement, node: &LentNode<'_>) -> bool
    ensures { result ≡ spec.needs wanted.now node.now }
{
    let own = wanted.name();
    if is_bare(wanted, node) {
        return true;
    }
    has_extra(own, wanted.extras(), node)
}

/// Whether a dependency that counts with an extra or none needs the node.
fn some_needs(
    problem: &Problem<'_>,
    at: Option<&Name>,
    dependencies: &[Requirement],
    node: &LentNode<'_>,
) -> bool
    ensures { result ≡ list_any
        (λ wanted. counts problem.now.environment (option_copied at.entry) wanted
        && spec.needs wanted node.now) dependencies.now }
{
    dependencies.iter().any(|wanted| counts(&problem.environment, at, wanted)
        && needs(wanted, node))
}

/// Whether something that a version of a term wants needs the node.
fn version_needs(
    problem: &Problem<'_>,
    term: &SetTerm,
    version: &Version,
    node: &LentNode<'_>,
) -> bool
    ensures { result ≡ list_any (λ wanted. spec.needs wanted node.now)
        (wants problem.now term.now.node version.now) }
{
    let dependencies = problem.dependencies(&term.name, version);
    some_needs(problem, term.extra.as_ref(), dependencies, node)
}

/// Whether each of these versions of a term wants something that needs the node.
fn each_needs(
    problem: &Problem<'_>,
    term: &SetTerm,
    versions: &[Version],
    node: &LentNode<'_>,
) -> bool
    ensures { result ≡ list_all
        (λ version. list_any (λ wanted. spec.needs wanted node.now)
        (wants problem.now term.now.node version)) versions.now }
{
    versions
        .iter()
        .all(|version| version_needs(problem, term, version, node))
}

/// Whether each version of the term needs the node, where a term is given.
fn is_needed_by(problem: &Problem<'_>, term: Option<&SetTerm>, node: &LentNode<'_>) -> bool
    ensures { result ≡ spec.is_needed_by problem.now (option_copied term.entry) node.now }
{
    match term {
        None => true,
        Some(term) => each_needs(problem, term, term.versions.as_slice(), node),
    }
}

/// Whether no candidate is left for a node, which each version of the term needs where one is given.
fn is_left_out(
    problem: &Problem<'_>,
    earlier: &EarlierSets<'_>,
    conflict: &[SetTerm],
    term: Option<&SetTerm>,
    node: &LentNode<'_>,
) -> bool
    ensures { result ≡ spec.is_left_out problem.now earlier.now conflict.now
        (option_copied term.entry) node.now }
{
    none_left(problem, earlier, conflict, node) && is_needed_by(problem, term, node)
}

/// The first of the extras of a requirement with which its name is such a node.
fn extra_left_out<'a>(
    problem: &Problem<'_>,
    earlier: &EarlierSets<'_>,
    conflict: &[SetTerm],
    term: Option<&SetTerm>,
    wanted: &'a Requirement,
) -> Option<&'a Name>
    ensures { option_copied result ≡ find
        (λ extra. spec.is_left_out problem.now earlier.now conflict.now (option_copied term.entry)
        (with_extra wanted.now.name extra)) wanted.now.extras }
{
    let name = wanted.name();
    let extras = wanted.extras();
    extras.iter().find(|extra| {
        let extra = Some(*extra);
        is_left_out(problem, earlier, conflict, term, &LentNode { name, extra })
    })
}

/// The first such node of those that a requirement needs.
fn node_left_out<'a>(
    problem: &Problem<'_>,
    earlier: &EarlierSets<'_>,
    conflict: &[SetTerm],
    term: Option<&SetTerm>,
    wanted: &'a Requirement,
) -> Option<LentNode<'a>>
    ensures { MatchOption result
        (list_any (spec.is_left_out problem.now earlier.now conflict.now (option_copied term.entry))
        (nodes_of wanted.now) ≡ false)
        (λ node. Contains (nodes_of wanted.now) node
        × (spec.is_left_out problem.now earlier.now conflict.now (option_copied term.entry) node
        ≡ true)) }
{
    let name = wanted.name();
    let node = LentNode { name, extra: None };
    if is_left_out(problem, earlier, conflict, term, &node) {
        return Some(node);
    }
    let extra = extra_left_out(problem, earlier, conflict, term, wanted)?;
    let extra = Some(extra);
    Some(LentNode { name, extra })
}

/// Whether a dependency counts at the node of a term.
fn counts_at(problem: &Problem<'_>, term: &SetTerm, wanted: &Requirement) -> bool
    ensures { result ≡ counts problem.now.environment term.now.node.extra wanted.now }
{
    counts(&problem.environment, term.extra.as_ref(), wanted)
}

/// The first such node of those that the dependencies need which count at the term's node.
fn node_left_behind<'a>(
    problem: &Problem<'_>,
    earlier: &EarlierSets<'_>,
    conflict: &[SetTerm],
    term: &SetTerm,
    dependencies: &'a [Requirement],
) -> Option<LentNode<'a>>
    ensures { MatchOption result
        (list_any
        (λ wanted. counts problem.now.environment term.now.node.extra wanted
        && list_any (spec.is_left_out problem.now earlier.now conflict.now (Some term.now))
        (nodes_of wanted)) dependencies.now ≡ false)
        (λ node. spec.is_left_out problem.now earlier.now conflict.now (Some term.now) node
        ≡ true) }
{
    for place in 0..dependencies.len() {
        let wanted = &dependencies[place];
        if counts_at(problem, term, wanted) {
            if let Some(node) = node_left_out(problem, earlier, conflict, Some(term), wanted) {
                return Some(node);
            }
        }
    }
    None
}

/// The first such node of those that a version of the term needs.
fn node_left_at<'a>(
    problem: &'a Problem<'_>,
    earlier: &EarlierSets<'_>,
    conflict: &[SetTerm],
    term: &SetTerm,
    version: &Version,
) -> Option<LentNode<'a>>
    ensures { MatchOption result
        (list_any
        (λ wanted. list_any (spec.is_left_out problem.now earlier.now conflict.now (Some term.now))
        (nodes_of wanted)) (wants problem.now term.now.node version.now) ≡ false)
        (λ node. spec.is_left_out problem.now earlier.now conflict.now (Some term.now) node
        ≡ true) }
{
    let dependencies = problem.dependencies(&term.name, version);
    node_left_behind(problem, earlier, conflict, term, dependencies)
}

/// A node for which no candidate is left and which each version of a term needs: one of those that its
/// first version needs.
fn exhausted_behind<'a>(
    problem: &'a Problem<'_>,
    earlier: &EarlierSets<'_>,
    conflict: &[SetTerm],
    term: &SetTerm,
) -> Option<LentNode<'a>>
    ensures { MatchOption result
        (spec.none_left_behind problem.now earlier.now conflict.now term.now term.now.versions
        ≡ false)
        (λ node. spec.is_left_out problem.now earlier.now conflict.now (Some term.now) node
        ≡ true) }
{
    match term.versions.as_slice().first() {
        Some(first) => node_left_at(problem, earlier, conflict, term, first),
        None => None,
    }
}

/// The ground that each version of one of the terms needs a node for which no candidate is left.
fn exhausted_by_term<'a>(
    problem: &'a Problem<'_>,
    earlier: &EarlierSets<'_>,
    conflict: &[SetTerm],
) -> Option<SetGround<'a>>
    ensures { MatchOption result
        (list_any
        (λ term. spec.none_left_behind problem.now earlier.now conflict.now term term.versions)
        conflict.now ≡ false)
        (IsSetGround problem.now earlier.now conflict.now) }
{
    for place in 0..conflict.len() {
        let term = &conflict[place];
        if let Some(node) = exhausted_behind(problem, earlier, conflict, term) {
            return Some(SetGround::NoneLeft(SetNeed::Term(place), node.name, node.extra));
        }
    }
    None
}

/// The ground that one of the lines needs a node for which no candidate is left.
fn exhausted_by_line<'a>(
    problem: &'a Problem<'_>,
    earlier: &EarlierSets<'_>,
    conflict: &[SetTerm],
) -> Option<SetGround<'a>>
    ensures { MatchOption result
        (list_any (λ line. list_any (spec.is_left_out problem.now earlier.now conflict.now None)
        (nodes_of line)) problem.now.active ≡ false)
        (IsSetGround problem.now earlier.now conflict.now) }
{
    let lines = problem.active.as_slice();
    for place in 0..lines.len() {
        if let Some(node) = node_left_out(problem, earlier, conflict, None, &lines[place]) {
            return Some(SetGround::NoneLeft(SetNeed::Line(place), node.name, node.extra));
        }
    }
    None
}

/// The ground that a line needs a node, or each version of a term does, and that with each candidate at
/// this node the conflict contains an earlier one. A term with no version clashes with itself; then a
/// node that nothing needs isn't looked for.
pub(crate) fn exhausted<'a>(
    problem: &'a Problem<'_>,
    earlier: &EarlierSets<'_>,
    conflict: &[SetTerm],
) -> Option<SetGround<'a>>
    ensures { MatchOption result
        (NoCandidateLeft (rules_of problem.now) same_version earlier.now conflict.now
        → SetsClash (rules_of problem.now) same_version conflict.now)
        (IsSetGround problem.now earlier.now conflict.now) }
{
    if let Some(ground) = exhausted_by_line(problem, earlier, conflict) {
        return Some(ground);
    }
    exhausted_by_term(problem, earlier, conflict)
}
