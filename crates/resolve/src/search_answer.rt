// What a search of the table of a problem finds.

ghost use Rattle.std.specs.Prelude.{IfOk};
ghost use Rattle.resolve.specs.Tied.Pictured.{IsPictured};
ghost use Rattle.resolve.specs.Resolves.{Resolves};

use crate::answer::Answer;
use crate::method::Method;
use crate::solution::versions_of;
use crate::table::{Tabled, table_of};
use pep440::Version;
use pep508::{Name, Requirement};
use problems::{Node, Problem};
use search::laws;
use std::alloc::{AllocError, Global};

/// The best solution, worked out on a table.
fn best_in(
    alloc: Global,
    problem: &Problem<'_>,
    tabled: &Tabled,
    method: Method,
) -> Result<Answer, AllocError>
    requires { IsPictured problem.now tabled.now.names tabled.now.nodes tabled.now.table }
    ensures { IfOk result (Resolves problem.now) }
{
    laws::a_picture_keeps_the_best_solution::<Name, Node, Version, Requirement>();
    let table = &tabled.table;
    // What is known of every table comes with its count.
    let _count = table.name_count();
    match method.best(alloc, table)? {
        None => Ok(Answer::NoSolution),
        Some(choices) => {
            let names = tabled.names.as_slice();
            let versions = versions_of(alloc, problem, names, choices.as_slice())?;
            Ok(Answer::Solution(versions))
        }
    }
}

/// The best solution, worked out on the table of the problem.
pub(crate) fn best(
    alloc: Global,
    problem: &Problem<'_>,
    method: Method,
) -> Result<Answer, AllocError>
    ensures { IfOk result (Resolves problem.now) }
{
    let tabled = table_of(alloc, problem)?;
    best_in(alloc, problem, &tabled, method)
}
