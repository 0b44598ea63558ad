//! Laws of refutations, each the contract of a function that does nothing.

ghost use Rattle.std.specs.Prelude.{List};
ghost use Rattle.std.specs.List.{Contains};
ghost use Rattle.search.specs.Conflicts.{IsRefutation, LiesInNone};
ghost use Rattle.search.specs.Solutions.{HasNoSolution};
ghost use Rattle.problems.specs.Choices.{ChoiceParts};
ghost use Rattle.problems.specs.Problem.{ProblemParts};
ghost use Rattle.problems.specs.Rules.{rules_of, same_version};

use pep440::Version;
use pep508::{Name, Requirement};
use problems::Node;
pub use search::laws::what_follows_lies_in_no_solution;

/// Where a list is a refutation of a problem, the problem has no solution, and each conflict of the
/// list lies in none.
pub fn an_accepted_refutation_leaves_no_solution()
    ensures none { (given : ProblemParts) (conflicts : List (List ChoiceParts))
        → IsRefutation (rules_of given) same_version conflicts → HasNoSolution (rules_of given) }
    ensures each { (given : ProblemParts) (conflicts : List (List ChoiceParts))
        → IsRefutation (rules_of given) same_version conflicts → (conflict : List ChoiceParts)
        → Contains conflicts conflict → LiesInNone (rules_of given) same_version conflict }
{
    what_follows_lies_in_no_solution::<Name, Node, Version, Requirement>();
}
