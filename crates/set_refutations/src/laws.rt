//! Laws of refutations by sets, each the contract of a function that does nothing.

ghost use Rattle.std.specs.Prelude.{List};
ghost use Rattle.std.specs.List.{Contains};
ghost use Rattle.search.specs.SetConflicts.{IsSetRefutation, SetLiesInNone};
ghost use Rattle.search.specs.Solutions.{HasNoSolution};
ghost use Rattle.problems.specs.Problem.{ProblemParts};
ghost use Rattle.problems.specs.Rules.{rules_of, same_version};
ghost use Rattle.set_refutations.specs.SetRefutations.{TermParts};

use pep440::Version;
use pep508::{Name, Requirement};
use problems::Node;
pub use search::laws::what_follows_from_sets_lies_in_no_solution;

/// Where a list is a set refutation of a problem, the problem has no solution, and each conflict of
/// the list lies in none.
pub fn an_accepted_set_refutation_leaves_no_solution()
    ensures none { (given : ProblemParts) (conflicts : List (List TermParts))
        → IsSetRefutation (rules_of given) same_version conflicts
        → HasNoSolution (rules_of given) }
    ensures each { (given : ProblemParts) (conflicts : List (List TermParts))
        → IsSetRefutation (rules_of given) same_version conflicts → (conflict : List TermParts)
        → Contains conflicts conflict → SetLiesInNone (rules_of given) same_version conflict }
{
    what_follows_from_sets_lies_in_no_solution::<Name, Node, Version, Requirement>();
}
