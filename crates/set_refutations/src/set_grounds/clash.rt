// Terms whose versions can't stand together.

ghost use Rattle.std.specs.Prelude.{◌≡◌, ◌≤◌, ◌&&◌, List, MatchOption, Some, drop, false, true};
ghost use Rattle.std.specs.List.{list_all, list_any, slice_get};
ghost use Rattle.std.specs.Option.{option_copied};
ghost use Rattle.search.specs.SetConflicts.{SetsClash};
ghost use Rattle.problems.specs.Tied.ChoiceTests as choices;
ghost use Rattle.set_refutations.specs.Grounds.{IsSetGround};
ghost use Rattle.problems.specs.Rules.{counts, rules_of, same_version, wants};
ghost use Rattle.set_refutations.specs.SetRefutations.{TermParts};
ghost use Rattle.set_refutations.specs.Tied.SetCases as spec;

use crate::set_ground::SetGround;
use crate::set_grounds::refusal::refuses_all;
use crate::set_refutation::SetTerm;
use pep440::Version;
use pep508::{Name, Requirement};
use problems::Problem;
use problems::parts::{LentChoice, LentNode, admits, counts};

/// Whether a requirement is on the name of a choice and doesn't admit its version.
fn refuses(problem: &Problem<'_>, wanted: &Requirement, choice: &LentChoice<'_, '_>) -> bool
    ensures { result ≡ choices.refuses problem.now wanted.now choice.now }
{
    let node = choice.node;
    wanted.name().normal() == node.name.normal() && !admits(problem, wanted, choice.version)
}

/// Whether a dependency that counts with an extra or none refuses the choice.
fn some_refuses(
    problem: &Problem<'_>,
    extra: Option<&Name>,
    dependencies: &[Requirement],
    choice: &LentChoice<'_, '_>,
) -> bool
    ensures { result ≡ list_any
        (λ wanted. counts problem.now.environment (option_copied extra.entry) wanted
        && choices.refuses problem.now wanted choice.now) dependencies.now }
{
    dependencies.iter().any(|wanted| {
        counts(&problem.environment, extra, wanted) && refuses(problem, wanted, choice)
    })
}

/// Whether something that a version wants at a node refuses the choice.
fn refuses_at(
    problem: &Problem<'_>,
    node: &LentNode<'_>,
    version: &Version,
    choice: &LentChoice<'_, '_>,
) -> bool
    ensures { result ≡ spec.refuses_at problem.now node.now version.now choice.now.node
        choice.now.version }
{
    let dependencies = problem.dependencies(node.name, version);
    some_refuses(problem, node.extra, dependencies, choice)
}

/// Whether two choices are two versions for one name.
fn differ(one: &LentChoice<'_, '_>, other: &LentChoice<'_, '_>) -> bool
    ensures { result ≡ choices.differ one.now other.now }
{
    let (node, beside) = (one.node, other.node);
    node.name.normal() == beside.name.normal() && !one.version.cmp(other.version).is_eq()
}

/// Whether two choices can't stand together.
fn pair_clashes(problem: &Problem<'_>, one: &LentChoice<'_, '_>, other: &LentChoice<'_, '_>) -> bool
    ensures { result ≡ spec.pair_clashes problem.now one.now.node one.now.version other.now.node
        other.now.version }
{
    differ(one, other)
        || refuses_at(problem, one.node, one.version, other)
        || refuses_at(problem, other.node, other.version, one)
}

/// Whether a choice clashes with each of these versions at the node.
fn clashes_with_each(
    problem: &Problem<'_>,
    one: &LentChoice<'_, '_>,
    node: &LentNode<'_>,
    versions: &[Version],
) -> bool
    ensures { result ≡ list_all
        (spec.pair_clashes problem.now one.now.node one.now.version node.now) versions.now }
{
    versions.iter().all(|version| pair_clashes(problem, one, &LentChoice { node, version }))
}

/// Whether each of these versions at the node clashes with each of the term.
fn each_clashes(
    problem: &Problem<'_>,
    node: &LentNode<'_>,
    versions: &[Version],
    other: &SetTerm,
) -> bool
    ensures { result ≡ list_all
        (λ version. list_all (spec.pair_clashes problem.now node.now version other.now.node)
        other.now.versions) versions.now }
{
    let others = other.versions.as_slice();
    let at = other.node();
    versions.iter().all(|version| {
        clashes_with_each(problem, &LentChoice { node, version }, &at, others)
    })
}

/// Whether a dependency that counts with an extra or none admits no version of the term.
fn some_refuses_all(
    problem: &Problem<'_>,
    extra: Option<&Name>,
    dependencies: &[Requirement],
    other: &SetTerm,
) -> bool
    ensures { result ≡ list_any
        (λ wanted. counts problem.now.environment (option_copied extra.entry) wanted
        && spec.refuses_all problem.now wanted other.now) dependencies.now }
{
    dependencies.iter().any(|wanted| {
        counts(&problem.environment, extra, wanted) && refuses_all(problem, wanted, other)
    })
}

/// Whether something that a version of one term wants admits no version of the other.
fn refuses_all_at(problem: &Problem<'_>, one: &SetTerm, version: &Version, other: &SetTerm) -> bool
    ensures { result ≡ list_any (λ wanted. spec.refuses_all problem.now wanted other.now)
        (wants problem.now one.now.node version.now) }
{
    let dependencies = problem.dependencies(&one.name, version);
    some_refuses_all(problem, one.extra.as_ref(), dependencies, other)
}

/// Whether each of these versions of the one term wants something that admits none of the other's.
fn each_refuses_all(
    problem: &Problem<'_>,
    one: &SetTerm,
    versions: &[Version],
    other: &SetTerm,
) -> bool
    ensures { result ≡ list_all
        (λ version. list_any (λ wanted. spec.refuses_all problem.now wanted other.now)
        (wants problem.now one.now.node version)) versions.now }
{
    versions
        .iter()
        .all(|version| refuses_all_at(problem, one, version, other))
}

/// Whether each version of the one term wants something that admits none of the other's.
fn refuses_whole(problem: &Problem<'_>, one: &SetTerm, other: &SetTerm) -> bool
    ensures { result ≡ spec.each_refuses_all problem.now one.now other.now }
{
    each_refuses_all(problem, one, one.versions.as_slice(), other)
}

/// The same, the other way round.
fn is_refused_whole(problem: &Problem<'_>, one: &SetTerm, other: &SetTerm) -> bool
    ensures { result ≡ spec.each_refuses_all problem.now other.now one.now }
{
    refuses_whole(problem, other, one)
}

/// Whether each version of the one term clashes with each of the other. Mostly all versions of one of
/// them want something that refuses the other as a whole, so this is asked first.
fn terms_clash(problem: &Problem<'_>, one: &SetTerm, other: &SetTerm) -> bool
    ensures { result ≡ spec.terms_clash problem.now one.now other.now }
{
    if refuses_whole(problem, one, other) {
        return true;
    }
    if is_refused_whole(problem, one, other) {
        return true;
    }
    each_clashes(problem, &one.node(), one.versions.as_slice(), other)
}

/// The place of the first of the terms, from a place on, that a term clashes with.
fn place_clashing(
    problem: &Problem<'_>,
    one: &SetTerm,
    conflict: &[SetTerm],
    from: usize,
) -> Option<usize>
    ensures { MatchOption result
        (list_any (spec.terms_clash problem.now one.now) (drop from conflict.now) ≡ false)
        (λ place. (from ≤ place) × ((other : TermParts) × (slice_get conflict.now place ≡ Some other)
        × (spec.terms_clash problem.now one.now other ≡ true))) }
{
    for place in from..conflict.len() {
        if terms_clash(problem, one, &conflict[place]) {
            return Some(place);
        }
    }
    None
}

/// The first two terms, or one twice, each version of one of which clashes with each of the other.
/// Terms that clash do so whichever is named first, so the second is looked for from the first on.
pub(crate) fn clashing<'a>(problem: &Problem<'_>, conflict: &[SetTerm]) -> Option<SetGround<'a>>
    ensures { MatchOption result (SetsClash (rules_of problem.now) same_version conflict.now → ⊥)
        (λ found. (earlier : List (List TermParts))
        → IsSetGround problem.now earlier conflict.now found) }
{
    for place in 0..conflict.len() {
        if let Some(other) = place_clashing(problem, &conflict[place], conflict, place) {
            return Some(SetGround::TermsClash(place, other));
        }
    }
    None
}
