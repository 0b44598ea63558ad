// The dependency of a choice that doesn't admit another one.

ghost use Rattle.std.specs.Prelude.{◌≡◌, ◌&&◌, List, MatchOption, find};
ghost use Rattle.std.specs.List.{list_any};
ghost use Rattle.std.specs.Option.{option_copied};
ghost use Rattle.search.specs.Conflicts.{ChoicesClash};
ghost use Rattle.problems.specs.Tied.ChoiceTests as spec;
ghost use Rattle.refutations.specs.Grounds.{IsGround};
ghost use Rattle.problems.specs.Choices.{ChoiceParts};
ghost use Rattle.problems.specs.Rules.{counts, rules_of, wants};

use crate::choice::Choice;
use crate::ground::Ground;
use crate::grounds::refusal::refuses;
use pep508::{Name, Requirement};
use problems::Problem;
use problems::parts::counts;

/// Whether a requirement refuses one of the choices.
fn refuses_one(problem: &Problem<'_>, wanted: &Requirement, conflict: &[Choice]) -> bool
    ensures { result ≡ list_any (spec.refuses problem.now wanted.now) conflict.now }
{
    conflict
        .iter()
        .any(|choice| refuses(problem, wanted, choice))
}

/// Whether a dependency that counts with an extra or none refuses one of the choices.
fn some_refuses_one(
    problem: &Problem<'_>,
    extra: Option<&Name>,
    dependencies: &[Requirement],
    conflict: &[Choice],
) -> bool
    ensures { result ≡ list_any
        (λ wanted. counts problem.now.environment (option_copied extra.entry) wanted
        && list_any (spec.refuses problem.now wanted) conflict.now) dependencies.now }
{
    dependencies.iter().any(|wanted| {
        counts(&problem.environment, extra, wanted) && refuses_one(problem, wanted, conflict)
    })
}

/// Whether something that a choice wants refuses one of the choices.
fn clashes(problem: &Problem<'_>, one: &Choice, conflict: &[Choice]) -> bool
    ensures { result ≡ list_any
        (λ wanted. list_any (spec.refuses problem.now wanted) conflict.now)
        (wants problem.now one.now.node one.now.version) }
{
    let dependencies = problem.dependencies(&one.name, &one.version);
    some_refuses_one(problem, one.extra.as_ref(), dependencies, conflict)
}

/// The first dependency that counts with an extra or none and refuses one of the choices.
fn dependency_refusing<'a>(
    problem: &Problem<'_>,
    extra: Option<&Name>,
    dependencies: &'a [Requirement],
    conflict: &[Choice],
) -> Option<&'a Requirement>
    ensures { option_copied result ≡ find
        (λ wanted. counts problem.now.environment (option_copied extra.entry) wanted
        && list_any (spec.refuses problem.now wanted) conflict.now) dependencies.now }
{
    dependencies.iter().find(|wanted| {
        counts(&problem.environment, extra, wanted) && refuses_one(problem, wanted, conflict)
    })
}

/// The first thing that a choice wants and that refuses one of the choices.
fn wanted_refusing<'a>(
    problem: &'a Problem<'_>,
    one: &Choice,
    conflict: &[Choice],
) -> Option<&'a Requirement>
    ensures { option_copied result ≡ find
        (λ wanted. list_any (spec.refuses problem.now wanted) conflict.now)
        (wants problem.now one.now.node one.now.version) }
{
    let dependencies = problem.dependencies(&one.name, &one.version);
    dependency_refusing(problem, one.extra.as_ref(), dependencies, conflict)
}

/// The first of the choices that wants something which refuses one of them.
fn choice_clashing<'a>(problem: &Problem<'_>, conflict: &'a [Choice]) -> Option<&'a Choice>
    ensures { option_copied result ≡ find
        (λ one. list_any (λ wanted. list_any (spec.refuses problem.now wanted) conflict.now)
        (wants problem.now one.node one.version)) conflict.now }
{
    conflict.iter().find(|one| clashes(problem, one, conflict))
}

/// The first of the choices that a requirement refuses.
fn choice_refused_by<'a>(
    problem: &Problem<'_>,
    wanted: &Requirement,
    conflict: &'a [Choice],
) -> Option<&'a Choice>
    ensures { option_copied result ≡ find (spec.refuses problem.now wanted.now) conflict.now }
{
    conflict
        .iter()
        .find(|other| refuses(problem, wanted, other))
}

/// The dependency of a choice, which counts at its node, that doesn't admit another choice on its name.
pub(crate) fn clashing<'a>(problem: &'a Problem<'_>, conflict: &'a [Choice]) -> Option<Ground<'a>>
    ensures { MatchOption result (ChoicesClash (rules_of problem.now) conflict.now → ⊥)
        (λ found. (earlier : List (List ChoiceParts))
        → IsGround problem.now earlier conflict.now found) }
{
    let one = choice_clashing(problem, conflict)?;
    let wanted = wanted_refusing(problem, one, conflict)?;
    let other = choice_refused_by(problem, wanted, conflict)?;
    Some(Ground::ChoicesClash(one, wanted, other))
}
