// Whether a list of conflicts of sets is a refutation of a problem. None of it has a refusal.

ghost use Rattle.std.specs.Prelude.{◌≡◌, ◌↔◌, ◌++◌, ◌∷◌, [], IsTrue, List};
ghost use Rattle.search.specs.SetConflicts.{EachSetFollows, IsSetRefutation, SetFollows};
ghost use Rattle.search.specs.Solutions.{HasNoSolution};
ghost use Rattle.problems.specs.Rules.{rules_of, same_version};
ghost use Rattle.set_refutations.specs.SetRefutations.{TermParts};

use crate::earlier_sets::EarlierSets;
use crate::laws;
use crate::set_grounds::set_ground_of;
use crate::set_refutation::{SetRefutation, SetTerm};
use lists::Seq;
use problems::Problem;

/// Whether a conflict follows from earlier ones.
fn follows(problem: &Problem<'_>, earlier: &[Seq<SetTerm>], conflict: &[SetTerm]) -> bool
    ensures { IsTrue result
        ↔ SetFollows (rules_of problem.now) same_version earlier.now conflict.now }
{
    set_ground_of(problem, &EarlierSets::all(earlier), conflict).is_some()
}

/// Whether each conflict follows from those before it.
fn each_follows(problem: &Problem<'_>, conflicts: &[Seq<SetTerm>]) -> bool
    ensures { IsTrue result
        ↔ EachSetFollows (rules_of problem.now) same_version [] conflicts.now }
{
    for place in 0..conflicts.len() {
        if !follows(problem, &conflicts[..place], conflicts[place].as_slice()) {
            return false;
        }
    }
    true
}

/// Whether the last conflict is empty.
pub fn ends_empty(conflicts: &[Seq<SetTerm>]) -> bool
    ensures { IsTrue result ↔ ((front : List (List TermParts)) × (conflicts.now
        ≡ front ++ [] ∷ [])) }
{
    match conflicts.last() {
        Some(last) => last.is_empty(),
        None => false,
    }
}

/// Whether these conflicts are a refutation of what is asked.
fn is_refutation(problem: &Problem<'_>, conflicts: &[Seq<SetTerm>]) -> bool
    ensures { IsTrue result ↔ IsSetRefutation (rules_of problem.now) same_version conflicts.now }
{
    ends_empty(conflicts) && each_follows(problem, conflicts)
}

/// Whether each conflict follows from those before it and the last one is empty, whoever made the
/// list. Then the problem has no solution.
pub fn check_sets(problem: &Problem<'_>, refutation: &SetRefutation) -> bool
    ensures accepted { IsTrue result
        ↔ IsSetRefutation (rules_of problem.now) same_version refutation.now }
    ensures none { IsTrue result → HasNoSolution (rules_of problem.now) }
{
    laws::an_accepted_set_refutation_leaves_no_solution();
    is_refutation(problem, refutation.conflicts())
}
