// What a search over sets of the table of a problem finds.

ghost use Rattle.std.specs.Prelude.{IfOk, MatchOption};
ghost use Rattle.search.specs.SetConflicts.{IsSetRefutation};
ghost use Rattle.problems.specs.Rules.{rules_of, same_version};
ghost use Rattle.problems.specs.Solutions.{HasSolution};
ghost use Rattle.resolve.specs.Tied.Pictured.{IsPictured};

use crate::answer::refuted_in;
use crate::set_refutation::{as_sets, set_refutation_of};
use pep440::Version;
use pep508::{Name, Requirement};
use problems::{Node, Problem};
use resolve::table::{Tabled, table_of};
use search::{Watch, laws};
use set_refutations::{PlacedRefutation, SetRefutation};
use set_search::{SetVerdict, solved};
use std::alloc::{AllocError, Global};

/// A refutation by conflicts of single versions as one of sets, or nothing where there is a solution.
fn refuted_singly_in<W: Watch>(
    alloc: Global,
    problem: &Problem<'_>,
    tabled: &Tabled,
    watch: &mut W,
) -> Result<Option<SetRefutation>, AllocError>
    requires { IsPictured problem.now tabled.now.names tabled.now.nodes tabled.now.table }
    ensures { IfOk result
        (λ found. MatchOption found (HasSolution problem.now)
        (IsSetRefutation (rules_of problem.now) same_version)) }
{
    laws::a_refutation_is_a_set_refutation::<Name, Node, Version, Requirement>();
    match refuted_in(alloc, problem, tabled, watch)? {
        None => Ok(None),
        Some(refutation) => Ok(Some(as_sets(alloc, &refutation)?)),
    }
}

/// A set refutation, or nothing where there is a solution, worked out on a table.
fn refuted_by_sets_in<W: Watch>(
    alloc: Global,
    problem: &Problem<'_>,
    tabled: &Tabled,
    watch: &mut W,
) -> Result<Option<SetRefutation>, AllocError>
    requires { IsPictured problem.now tabled.now.names tabled.now.nodes tabled.now.table }
    ensures { IfOk result
        (λ found. MatchOption found (HasSolution problem.now)
        (IsSetRefutation (rules_of problem.now) same_version)) }
{
    laws::a_picture_keeps_the_best_solution::<Name, Node, Version, Requirement>();
    laws::a_picture_keeps_set_refutations::<Name, Node, Version, Requirement>();
    let table = &tabled.table;
    // What is known of every table comes with its count.
    let _count = table.name_count();
    match solved(alloc, table, watch)? {
        SetVerdict::Best(_) => Ok(None),
        SetVerdict::Refuted(conflicts) => {
            let conflicts = conflicts.as_slice();
            let refutation = set_refutation_of(alloc, problem, tabled, conflicts)?;
            Ok(Some(refutation))
        }
        SetVerdict::GaveUp => refuted_singly_in(alloc, problem, tabled, watch),
    }
}

/// A refutation of the problem by conflicts of sets of versions, which `check_sets` accepts, placed in the index. Nothing
/// where the problem has a solution. Somebody is told that it goes on.
pub fn refute_by_sets<W: Watch>(
    alloc: Global,
    problem: &Problem<'_>,
    watch: &mut W,
) -> Result<Option<PlacedRefutation>, AllocError>
    ensures { IfOk result
        (λ found. MatchOption found (HasSolution problem.now)
        (IsSetRefutation (rules_of problem.now) same_version)) }
{
    let tabled = table_of(alloc, problem)?;
    match refuted_by_sets_in(alloc, problem, &tabled, watch)? {
        Some(refutation) => Ok(Some(PlacedRefutation::new(alloc, problem, refutation)?)),
        None => Ok(None),
    }
}
