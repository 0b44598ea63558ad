// Requirements that don't admit the version of a choice, and the line that doesn't.

ghost use Rattle.std.specs.Prelude.{◌≡◌, List, MatchOption, Some, find, false, true};
ghost use Rattle.std.specs.List.{list_any, slice_get};
ghost use Rattle.std.specs.Option.{option_copied};
ghost use Rattle.search.specs.Conflicts.{LineRefuses};
ghost use Rattle.pep508.specs.Requirement.{RequirementParts};
ghost use Rattle.problems.specs.Tied.ChoiceTests as spec;
ghost use Rattle.refutations.specs.Grounds.{IsGround};
ghost use Rattle.problems.specs.Choices.{ChoiceParts};
ghost use Rattle.problems.specs.Rules.{rules_of};

use crate::choice::Choice;
use crate::ground::Ground;
use pep508::Requirement;
use problems::Problem;
use problems::parts::admits;

/// Whether a requirement is on the name of a choice and doesn't admit its version.
pub(crate) fn refuses(problem: &Problem<'_>, wanted: &Requirement, choice: &Choice) -> bool
    ensures { result ≡ spec.refuses problem.now wanted.now choice.now }
{
    wanted.name().normal() == choice.name.normal() && !admits(problem, wanted, &choice.version)
}

/// Whether one of the lines refuses a choice.
fn some_line_refuses(problem: &Problem<'_>, lines: &[Requirement], choice: &Choice) -> bool
    ensures { result ≡ list_any (λ line. spec.refuses problem.now line choice.now) lines.now }
{
    lines.iter().any(|line| refuses(problem, line, choice))
}

/// The place of the first of the lines that refuses a choice.
fn place_refusing(problem: &Problem<'_>, lines: &[Requirement], choice: &Choice) -> Option<usize>
    ensures { MatchOption result
        (list_any (λ line. spec.refuses problem.now line choice.now) lines.now ≡ false)
        (λ place. (line : RequirementParts) × (slice_get lines.now place ≡ Some line)
        × (spec.refuses problem.now line choice.now ≡ true)) }
{
    for place in 0..lines.len() {
        if refuses(problem, &lines[place], choice) {
            return Some(place);
        }
    }
    None
}

/// The first of the choices that one of the lines refuses.
fn choice_refused<'a>(
    problem: &Problem<'_>,
    lines: &[Requirement],
    conflict: &'a [Choice],
) -> Option<&'a Choice>
    ensures { option_copied result ≡ find
        (λ choice. list_any (λ line. spec.refuses problem.now line choice) lines.now)
        conflict.now }
{
    conflict
        .iter()
        .find(|choice| some_line_refuses(problem, lines, choice))
}

/// The active line on its name that doesn't admit one of the choices.
pub(crate) fn refused<'a>(problem: &Problem<'_>, conflict: &'a [Choice]) -> Option<Ground<'a>>
    ensures { MatchOption result (LineRefuses (rules_of problem.now) conflict.now → ⊥)
        (λ found. (earlier : List (List ChoiceParts))
        → IsGround problem.now earlier conflict.now found) }
{
    let lines = problem.active.as_slice();
    let choice = choice_refused(problem, lines, conflict)?;
    let place = place_refusing(problem, lines, choice)?;
    Some(Ground::LineRefuses(place, choice))
}
