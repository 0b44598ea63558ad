//! The law of locks, the contract of a function that only calls another law.

ghost use Rattle.states.specs.Laws.{TheLockOfAProblemIsOne};

use pep440::Version;
use pep508::{Name, Requirement};
use resolve::Node;
use resolve::laws::the_best_solution_is_unique;

/// A problem has one lock at most: two locks of it are the same in every part.
pub fn the_lock_of_a_problem_is_one()
    ensures { TheLockOfAProblemIsOne }
{
    the_best_solution_is_unique::<Name, Node, Version, Requirement>();
}
