// Whether a list of conflicts is a refutation of a problem. None of it has a refusal.

ghost use Rattle.std.specs.Prelude.{◌≡◌, ◌↔◌, ◌++◌, ◌∷◌, [], IsTrue, List};
ghost use Rattle.search.specs.Conflicts.{EachFollows, Follows, IsRefutation};
ghost use Rattle.search.specs.Solutions.{HasNoSolution};
ghost use Rattle.problems.specs.Choices.{ChoiceParts};
ghost use Rattle.problems.specs.Rules.{rules_of, same_version};

use crate::choice::Choice;
use crate::grounds::ground_by;
use crate::grounds::hints::{Places, places_of};
use crate::laws;
use crate::refutation::Refutation;
use lists::Seq;
use problems::Problem;
use search::{Unwatched, Watch};

/// Whether a conflict follows from earlier ones.
fn follows(
    problem: &Problem<'_>,
    earlier: &[Seq<Choice>],
    conflict: &[Choice],
    places: Option<&Places<'_>>,
) -> bool
    ensures { IsTrue result
        ↔ Follows (rules_of problem.now) same_version earlier.now conflict.now }
{
    ground_by(problem, earlier, conflict, places).is_some()
}

/// Whether each conflict follows from those before it.
fn each_follows<W: Watch>(
    problem: &Problem<'_>,
    conflicts: &[Seq<Choice>],
    places: Option<&Places<'_>>,
    watch: &mut W,
) -> bool
    ensures { IsTrue result
        ↔ EachFollows (rules_of problem.now) same_version [] conflicts.now }
{
    for place in 0..conflicts.len() {
        watch.goes_on();
        if !follows(
            problem,
            &conflicts[..place],
            conflicts[place].as_slice(),
            places,
        ) {
            return false;
        }
    }
    true
}

/// Where to look for the conflicts, of which the last is empty: a copy of it takes no memory, and lends
/// the allocator. Nothing where memory is wanting.
fn hints_of<'c>(problem: &Problem<'_>, conflicts: &'c [Seq<Choice>]) -> Option<Places<'c>> {
    let last = conflicts.last()?.clone().ok()?.into_vec();
    places_of(*last.allocator(), problem, conflicts).ok()
}

/// The same, where hints tell to look first.
fn all_follow<W: Watch>(problem: &Problem<'_>, conflicts: &[Seq<Choice>], watch: &mut W) -> bool
    ensures { IsTrue result
        ↔ EachFollows (rules_of problem.now) same_version [] conflicts.now }
{
    let places = hints_of(problem, conflicts);
    each_follows(problem, conflicts, places.as_ref(), watch)
}

/// Whether the last conflict is empty.
fn ends_empty(conflicts: &[Seq<Choice>]) -> bool
    ensures { IsTrue result ↔ ((front : List (List ChoiceParts)) × (conflicts.now
        ≡ front ++ [] ∷ [])) }
{
    match conflicts.last() {
        Some(last) => last.is_empty(),
        None => false,
    }
}

/// Whether these conflicts are a refutation of what is asked.
fn is_refutation<W: Watch>(problem: &Problem<'_>, conflicts: &[Seq<Choice>], watch: &mut W) -> bool
    ensures { IsTrue result ↔ IsRefutation (rules_of problem.now) same_version conflicts.now }
{
    ends_empty(conflicts) && all_follow(problem, conflicts, watch)
}

/// Whether each conflict follows from those before it and the last one is empty, whoever made the
/// list. Then the problem has no solution.
pub fn check(problem: &Problem<'_>, refutation: &Refutation) -> bool
    ensures accepted { IsTrue result
        ↔ IsRefutation (rules_of problem.now) same_version refutation.now }
    ensures none { IsTrue result → HasNoSolution (rules_of problem.now) }
{
    let mut nobody = Unwatched;
    check_watched(problem, refutation, &mut nobody)
}

/// What `check` answers, while somebody is told that it goes on.
pub fn check_watched<W: Watch>(
    problem: &Problem<'_>,
    refutation: &Refutation,
    watch: &mut W,
) -> bool
    ensures accepted { IsTrue result
        ↔ IsRefutation (rules_of problem.now) same_version refutation.now }
    ensures none { IsTrue result → HasNoSolution (rules_of problem.now) }
{
    laws::an_accepted_refutation_leaves_no_solution();
    is_refutation(problem, refutation.conflicts(), watch)
}
