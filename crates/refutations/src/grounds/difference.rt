// Two versions for one name.

ghost use Rattle.std.specs.Prelude.{◌≡◌, List, MatchOption, find};
ghost use Rattle.std.specs.List.{list_any};
ghost use Rattle.std.specs.Option.{option_copied};
ghost use Rattle.search.specs.Conflicts.{VersionsDiffer};
ghost use Rattle.problems.specs.Tied.ChoiceTests as spec;
ghost use Rattle.refutations.specs.Grounds.{IsGround};
ghost use Rattle.problems.specs.Problem.{ProblemParts};
ghost use Rattle.problems.specs.Choices.{ChoiceParts};
ghost use Rattle.problems.specs.Rules.{rules_of, same_version};

use crate::choice::Choice;
use crate::ground::Ground;

/// Whether two choices are two versions for one name.
fn differ(one: &Choice, other: &Choice) -> bool
    ensures { result ≡ spec.differ one.now other.now }
{
    one.name.normal() == other.name.normal() && !one.version.cmp(&other.version).is_eq()
}

/// Whether one of the choices is another version for the name of this one.
fn one_differs(choice: &Choice, conflict: &[Choice]) -> bool
    ensures { result ≡ list_any (spec.differ choice.now) conflict.now }
{
    conflict.iter().any(|other| differ(choice, other))
}

/// The first of the choices that has another version than one of them on its name.
fn choice_differing<'a>(conflict: &'a [Choice]) -> Option<&'a Choice>
    ensures { option_copied result ≡ find
        (λ one. list_any (spec.differ one) conflict.now) conflict.now }
{
    conflict.iter().find(|one| one_differs(one, conflict))
}

/// The first of the choices that has another version than this one on its name.
fn other_version<'a>(one: &Choice, conflict: &'a [Choice]) -> Option<&'a Choice>
    ensures { option_copied result ≡ find (spec.differ one.now) conflict.now }
{
    conflict.iter().find(|other| differ(one, other))
}

/// Two versions for one name.
pub(crate) fn differing<'a>(conflict: &'a [Choice]) -> Option<Ground<'a>>
    ensures { MatchOption result
        ((given : ProblemParts) → VersionsDiffer (rules_of given) same_version conflict.now → ⊥)
        (λ found. (given : ProblemParts) (earlier : List (List ChoiceParts))
        → IsGround given earlier conflict.now found) }
{
    let one = choice_differing(conflict)?;
    let other = other_version(one, conflict)?;
    Some(Ground::VersionsDiffer(one, other))
}
