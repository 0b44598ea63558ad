// Resolvers.

ghost use Rattle.std.specs.Prelude.{IfOk};
ghost use Rattle.resolve.specs.Resolves.{Resolves};

use crate::answer::Answer;
use crate::method::Method;
use crate::search_answer::best;
use crate::walk::first_walk;
use problems::Problem;
use std::alloc::{AllocError, Global};

/// What finds the best solution of each problem, or tells that it has none.
pub trait Resolver {
    /// The best solution; `NoSolution` exactly where the problem has no solution.
    fn resolve(&self, alloc: Global, problem: &Problem<'_>) -> Result<Answer, AllocError>
        ensures { IfOk result (Resolves problem.now) };
}

/// A plain backtracking search.
#[derive(Debug, Drop)]
pub struct Plain;

impl Resolver for Plain {
    fn resolve(&self, alloc: Global, problem: &Problem<'_>) -> Result<Answer, AllocError> {
        best(alloc, problem, Method::Plain)
    }
}

/// What the first walk finds, or where it gives up, the searches that learn from their conflicts.
fn walked_or_learned(alloc: Global, problem: &Problem<'_>) -> Result<Answer, AllocError>
    ensures { IfOk result (Resolves problem.now) }
{
    match first_walk(alloc, problem)? {
        Some(versions) => Ok(Answer::Solution(versions)),
        None => best(alloc, problem, Method::Learning),
    }
}

/// A walk that takes the first candidate of each name; where that gives up, a search that learns
/// conflicts of sets of versions; and where that gives up too, one that learns conflicts of single versions.
#[derive(Debug, Drop)]
pub struct Learning;

/// What finds each lock of the program.
pub const RESOLVER: Learning = Learning;

impl Resolver for Learning {
    fn resolve(&self, alloc: Global, problem: &Problem<'_>) -> Result<Answer, AllocError> {
        walked_or_learned(alloc, problem)
    }
}
