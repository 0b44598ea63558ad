// Whether a conflict follows from earlier ones, for a given reason.

ghost use Rattle.std.specs.Prelude.{IfOk, IsTrue};
ghost use Rattle.search.specs.SetConflicts.{SetFollows};
ghost use Rattle.search.specs.Table.{places_eq, rules_of};

use crate::clash::do_clash;
use crate::completion::completes_each_version;
use crate::need::{NoneLeft, is_none_left};
use crate::refusal::line_refuses;
use crate::table_term::TableTerm;
use lists::Seq;
use search::Table;
use std::alloc::{AllocError, Global};

/// Why a conflict follows from earlier ones, told by places: of a line among the lines, of terms in
/// the conflict, of conflicts among the earlier ones.
#[derive(Drop)]
pub enum Reason {
    /// A line refuses the term.
    Line { line: usize, term: usize },
    /// The two terms clash.
    Clash { one: usize, other: usize },
    /// With each version of the term the conflict contains one of the earlier ones.
    EachVersion { term: usize, olds: Seq<usize> },
    /// A node is needed, and with each candidate of its name the conflict contains one of the
    /// earlier ones.
    NoneLeft(NoneLeft),
}

/// Whether a conflict follows from earlier ones for this reason.
pub fn follows(
    alloc: Global,
    table: &Table,
    earlier: &[Seq<TableTerm>],
    conflict: &[TableTerm],
    reason: &Reason,
) -> Result<bool, AllocError>
    ensures { IfOk result (λ follows. IsTrue follows
        → SetFollows (rules_of table.now) places_eq earlier.now conflict.now) }
{
    match reason {
        Reason::Line { line, term } => line_refuses(alloc, table, conflict, *line, *term),
        Reason::Clash { one, other } => do_clash(alloc, table, conflict, *one, *other),
        Reason::EachVersion { term, olds } => {
            completes_each_version(alloc, earlier, conflict, *term, olds.as_slice())
        }
        Reason::NoneLeft(none_left) => is_none_left(alloc, table, earlier, conflict, none_left),
    }
}
