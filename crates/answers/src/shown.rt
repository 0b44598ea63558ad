// What shows that a target has no solution.

ghost use Rattle.std.specs.Prelude.{IfOk, MatchOption};
ghost use Rattle.std.specs.List.{All};
ghost use Rattle.search.specs.Conflicts.{IsRefutation};
ghost use Rattle.search.specs.SetConflicts.{IsSetRefutation};
ghost use Rattle.problems.specs.Rules.{rules_of, same_version};
ghost use Rattle.problems.specs.Solutions.{HasSolution};
ghost use Rattle.answers.specs.Answers.{IsFirstRefuted, IsSolvable};

use edits::{Problem, TargetName};
use explain::{Explanation, explained};
use refutations::Refutation;
use refute::{refute_by_choices, refute_by_sets};
use search::Watch;
use std::alloc::{AllocError, Global};

/// The first target without a solution, by its place, and a refutation, which is printed conflict by conflict. Nothing where
/// each target has a solution.
pub fn first_refuted<W: Watch>(
    alloc: Global,
    problems: &[(TargetName, Problem<'_>)],
    watch: &mut W,
) -> Result<Option<(usize, Refutation)>, AllocError>
    ensures { IfOk result
        (λ found. MatchOption found (All IsSolvable problems.now)
        (IsFirstRefuted (λ given. IsRefutation (rules_of given) same_version) problems.now)) }
{
    for place in 0..problems.len() {
        if let Some(shown) = refute_by_choices(alloc, &problems[place].1, watch)? {
            return Ok(Some((place, shown)));
        }
    }
    Ok(None)
}

/// The same with a refutation by sets and its grounds, which is told in sentences.
pub fn first_explained<W: Watch>(
    alloc: Global,
    problems: &[(TargetName, Problem<'_>)],
    watch: &mut W,
) -> Result<Option<(usize, Explanation)>, AllocError>
    ensures { IfOk result
        (λ found. MatchOption found (All IsSolvable problems.now)
        (IsFirstRefuted (λ given. IsSetRefutation (rules_of given) same_version) problems.now)) }
{
    for place in 0..problems.len() {
        if let Some(shown) = refuted_by_sets(alloc, &problems[place].1, watch)? {
            return Ok(Some((place, shown)));
        }
    }
    Ok(None)
}

/// A refutation of the problem by sets, each conflict with its ground, mostly without those on which the last one doesn't
/// rest. Nothing where the problem has a solution. Somebody is told that it goes on.
pub fn refuted_by_sets<W: Watch>(
    alloc: Global,
    problem: &Problem<'_>,
    watch: &mut W,
) -> Result<Option<Explanation>, AllocError>
    ensures { IfOk result
        (λ found. MatchOption found (HasSolution problem.now)
        (IsSetRefutation (rules_of problem.now) same_version)) }
{
    match refute_by_sets(alloc, problem, watch)? {
        Some(refutation) => match explained(alloc, problem, refutation, watch)? {
            Some(explanation) => Ok(Some(explanation)),
            // what `refute_by_sets` gives is a refutation
            None => unreachable!(),
        },
        None => Ok(None),
    }
}
