// The best solution of a table, or a refutation, by the search over sets.

ghost use Rattle.std.specs.Prelude.{[], IfOk, IfSome};
ghost use Rattle.search.specs.Known.{AreKnownSets};
ghost use Rattle.search.specs.SetConflicts.{IsSetRefutation};
ghost use Rattle.search.specs.Solutions.{HasNoSolution, IsBest};
ghost use Rattle.search.specs.Table.{IsAscending, place_in, places_eq, rules_of};
ghost use Rattle.set_search.specs.SetVerdict.{MatchSetVerdict};

use crate::evidence::{Evidence, evidence_of};
use lists::Seq;
use search::{Table, TableChoice, Watch};
use set_conflicts::known_terms::are_known;
use set_conflicts::refutation::{Incompatibility, list_of, refutation_of};
use set_conflicts::replay::{Move, replayed};
use set_conflicts::table_term::TableTerm;
use std::alloc::{AllocError, Global};

/// What a search over sets finds.
#[derive(Drop)]
pub enum SetVerdict {
    /// The choices of the best solution, in the order of their names.
    Best(Seq<TableChoice>),
    /// There is no solution, and these conflicts show it.
    Refuted(Seq<Seq<TableTerm>>),
    /// The search didn't find out.
    GaveUp,
}

/// The choices of the best solution, if what the search recorded and its moves show that they are.
fn best_of(
    alloc: Global,
    table: &Table,
    recorded: Seq<Incompatibility>,
    moves: &[Move],
) -> Result<Option<Seq<TableChoice>>, AllocError>
    ensures best { IfOk result (λ answer. IfSome answer (λ choices. IsBest (rules_of
        table.now) (place_in choices))) }
    ensures ascending { IfOk result (λ answer. IfSome answer IsAscending) }
{
    let Some(conflicts) = list_of(alloc, table, recorded)? else {
        return Ok(None);
    };
    replayed(alloc, table, conflicts.as_slice(), moves)
}

/// These conflicts, if they are a refutation over what the table knows.
fn known_refutation(
    alloc: Global,
    table: &Table,
    recorded: Seq<Incompatibility>,
) -> Result<Option<Seq<Seq<TableTerm>>>, AllocError>
    ensures refutation { IfOk result
        (λ answer. IfSome answer (λ list. IsSetRefutation (rules_of table.now) places_eq list)) }
    ensures known { IfOk result (λ answer. IfSome answer (AreKnownSets table.now)) }
    ensures none { IfOk result
        (λ answer. IfSome answer (λ _. HasNoSolution (rules_of table.now))) }
{
    let Some(list) = refutation_of(alloc, table, recorded)? else {
        return Ok(None);
    };
    if !are_known(alloc, table, list.as_slice())? {
        return Ok(None);
    }
    Ok(Some(list))
}

/// The best solution of a table, or a refutation where there is no solution. The search is trusted
/// for nothing: where its evidence doesn't pass its tests, it counts as having given up. Somebody is told that it goes on.
pub fn solved<W: Watch>(
    alloc: Global,
    table: &Table,
    watch: &mut W,
) -> Result<SetVerdict, AllocError>
    ensures best { IfOk result
        (λ found. MatchSetVerdict found (λ choices. IsBest (rules_of table.now) (place_in choices))
        (λ _. HasNoSolution (rules_of table.now))) }
    ensures ascending { IfOk result (λ found. MatchSetVerdict found IsAscending (λ _. Unit)) }
    ensures refutation { IfOk result
        (λ found. MatchSetVerdict found (λ _. Unit)
        (λ conflicts. IsSetRefutation (rules_of table.now) places_eq conflicts)) }
    ensures known { IfOk result
        (λ found. MatchSetVerdict found (λ _. Unit) (AreKnownSets table.now)) }
{
    match evidence_of(alloc, table, watch)? {
        Evidence::GaveUp => Ok(SetVerdict::GaveUp),
        Evidence::Walked { recorded, moves } => {
            match best_of(alloc, table, recorded, moves.as_slice())? {
                None => Ok(SetVerdict::GaveUp),
                Some(choices) => Ok(SetVerdict::Best(choices)),
            }
        }
        Evidence::Refuted(recorded) => match known_refutation(alloc, table, recorded)? {
            None => Ok(SetVerdict::GaveUp),
            Some(list) => Ok(SetVerdict::Refuted(list)),
        },
    }
}
