// The ways to search a table.

ghost use Rattle.std.specs.Prelude.{IfOk, MatchOption};
ghost use Rattle.search.specs.Solutions.{HasNoSolution, IsBest};
ghost use Rattle.search.specs.Table.{IsAscending, place_in, rules_of};

use learning_search::learned_best;
use lists::Seq;
use plain_search::best;
use search::{Table, TableChoice, Unwatched};
use set_search::{SetVerdict, solved};
use std::alloc::{AllocError, Global};

/// A way to search a table. Each finds the same.
#[derive(Debug, Clone, Copy)]
pub(crate) enum Method {
    Plain,
    Learning,
}

/// What the search over sets of versions finds; where it gives up, what the search finds that learns
/// from conflicts of single versions.
fn learned(alloc: Global, table: &Table) -> Result<Option<Seq<TableChoice>>, AllocError>
    ensures best { IfOk result
        (λ answer. MatchOption answer (HasNoSolution (rules_of table.now))
        (λ choices. IsBest (rules_of table.now) (place_in choices))) }
    ensures ascending { IfOk result
        (λ answer. MatchOption answer Unit (λ choices. IsAscending choices)) }
{
    let mut nobody = Unwatched;
    match solved(alloc, table, &mut nobody)? {
        SetVerdict::Best(choices) => Ok(Some(choices)),
        SetVerdict::Refuted(_) => Ok(None),
        SetVerdict::GaveUp => learned_best(alloc, table),
    }
}

impl Method {
    /// The best solution of a table, its choices in the order of their names; nothing where there is
    /// no solution.
    pub(crate) fn best(
        self,
        alloc: Global,
        table: &Table,
    ) -> Result<Option<Seq<TableChoice>>, AllocError>
        ensures best { IfOk result
            (λ answer. MatchOption answer (HasNoSolution (rules_of table.now))
            (λ choices. IsBest (rules_of table.now) (place_in choices))) }
        ensures ascending { IfOk result
            (λ answer. MatchOption answer Unit (λ choices. IsAscending choices)) }
    {
        match self {
            Method::Plain => best(alloc, table),
            Method::Learning => learned(alloc, table),
        }
    }
}
