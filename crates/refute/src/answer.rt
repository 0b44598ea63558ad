// What a search over single versions of the table of a problem finds.

ghost use Rattle.std.specs.Prelude.{IfOk, MatchOption};
ghost use Rattle.search.specs.Conflicts.{IsRefutation};
ghost use Rattle.problems.specs.Rules.{rules_of, same_version};
ghost use Rattle.problems.specs.Solutions.{HasSolution};
ghost use Rattle.resolve.specs.Tied.Pictured.{IsPictured};

use crate::refutation::refutation_of;
use learning_search::{Found, learned_or_refuted};
use pep440::Version;
use pep508::{Name, Requirement};
use problems::{Node, Problem};
use refutations::{Refutation, cut};
use resolve::table::{Tabled, table_of};
use search::{Watch, laws};
use std::alloc::{AllocError, Global};

/// A refutation, or nothing where there is a solution, worked out on a table.
pub(crate) fn refuted_in<W: Watch>(
    alloc: Global,
    problem: &Problem<'_>,
    tabled: &Tabled,
    watch: &mut W,
) -> Result<Option<Refutation>, AllocError>
    requires { IsPictured problem.now tabled.now.names tabled.now.nodes tabled.now.table }
    ensures { IfOk result
        (λ found. MatchOption found (HasSolution problem.now)
        (IsRefutation (rules_of problem.now) same_version)) }
{
    laws::a_picture_keeps_the_best_solution::<Name, Node, Version, Requirement>();
    laws::a_picture_keeps_refutations::<Name, Node, Version, Requirement>();
    let table = &tabled.table;
    // What is known of every table comes with its count.
    let _count = table.name_count();
    match learned_or_refuted(alloc, table, watch)? {
        Found::Best(_) => Ok(None),
        Found::Refuted(conflicts) => {
            let conflicts = conflicts.as_slice();
            let refutation = refutation_of(alloc, problem, tabled, conflicts)?;
            Ok(Some(refutation))
        }
    }
}

/// A refutation of the problem by conflicts of single versions, which `check` accepts: of what the search has learned,
/// the conflicts that the last one rests on. Nothing where the problem has a solution. Somebody is told that it goes on.
pub fn refute_singly<W: Watch>(
    alloc: Global,
    problem: &Problem<'_>,
    watch: &mut W,
) -> Result<Option<Refutation>, AllocError>
    ensures { IfOk result
        (λ found. MatchOption found (HasSolution problem.now)
        (IsRefutation (rules_of problem.now) same_version)) }
{
    let tabled = table_of(alloc, problem)?;
    match refuted_in(alloc, problem, &tabled, watch)? {
        None => Ok(None),
        Some(refutation) => Ok(Some(cut(alloc, problem, refutation, watch)?)),
    }
}
