// Requirements that admit no version of a term.

ghost use Rattle.std.specs.Prelude.{◌≡◌, not, List, MatchOption, Some, false, true};
ghost use Rattle.std.specs.List.{list_all, list_any, slice_get};
ghost use Rattle.pep508.specs.Requirement.{RequirementParts};
ghost use Rattle.search.specs.SetConflicts.{LineRefusesSet};
ghost use Rattle.problems.specs.Admission as admission;
ghost use Rattle.set_refutations.specs.Grounds.{IsSetGround};
ghost use Rattle.problems.specs.Rules.{rules_of};
ghost use Rattle.set_refutations.specs.SetRefutations.{TermParts};
ghost use Rattle.set_refutations.specs.Tied.SetCases as spec;

use crate::set_ground::SetGround;
use crate::set_refutation::SetTerm;
use pep440::Version;
use pep508::Requirement;
use problems::Problem;
use problems::parts::admits;

/// Whether a requirement admits none of the versions.
fn admits_none(problem: &Problem<'_>, wanted: &Requirement, versions: &[Version]) -> bool
    ensures { result
        ≡ list_all (λ version. not (admission.admits problem.now wanted.now version)) versions.now }
{
    versions
        .iter()
        .all(|version| !admits(problem, wanted, version))
}

/// Whether a requirement is on the name of a term and admits none of its versions.
pub(crate) fn refuses_all(problem: &Problem<'_>, wanted: &Requirement, term: &SetTerm) -> bool
    ensures { result ≡ spec.refuses_all problem.now wanted.now term.now }
{
    wanted.name().normal() == term.name.normal()
        && admits_none(problem, wanted, term.versions.as_slice())
}

/// The place of the first of the lines that is on the name of the term and admits none of its versions.
fn line_refusing(problem: &Problem<'_>, lines: &[Requirement], term: &SetTerm) -> Option<usize>
    ensures { MatchOption result
        (list_any (λ line. spec.refuses_all problem.now line term.now) lines.now ≡ false)
        (λ place. (line : RequirementParts) × (slice_get lines.now place ≡ Some line)
        × (spec.refuses_all problem.now line term.now ≡ true)) }
{
    for place in 0..lines.len() {
        if refuses_all(problem, &lines[place], term) {
            return Some(place);
        }
    }
    None
}

/// The active line on its name that admits none of the versions of one of the terms.
pub(crate) fn refused<'a>(problem: &Problem<'_>, conflict: &[SetTerm]) -> Option<SetGround<'a>>
    ensures { MatchOption result (LineRefusesSet (rules_of problem.now) conflict.now → ⊥)
        (λ found. (earlier : List (List TermParts))
        → IsSetGround problem.now earlier conflict.now found) }
{
    let lines = problem.active.as_slice();
    for place in 0..conflict.len() {
        if let Some(line) = line_refusing(problem, lines, &conflict[place]) {
            return Some(SetGround::LineRefuses(line, place));
        }
    }
    None
}
