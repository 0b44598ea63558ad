// The table of a problem.

ghost use Rattle.std.specs.Prelude.{IfOk};
ghost use Rattle.resolve.specs.Tied.Pictured.{AreListed, IsListed, IsPictured};

use crate::candidates::candidates;
use crate::gathered_nodes::Gathering;
use crate::names::{names_of, numbers_of};
use lists::Seq;
use pep508::Name;
use problems::{Node, Problem};
use search::Table;
use std::alloc::{AllocError, Global};

/// The table of a problem, and the names and nodes that its numbers stand for.
#[derive(Drop)]
pub struct Tabled {
    pub names: Seq<Name>,
    pub nodes: Seq<Node>,
    pub table: Table,
}

/// The candidates of a name, whose releases fall by version.
fn listed(alloc: Global, problem: &Problem<'_>, name: &Name) -> Result<Seq<usize>, AllocError>
    ensures { IfOk result (λ places. IsListed problem.now places name.now) }
{
    let _releases = problem.releases(name);
    candidates(alloc, problem, name)
}

/// The candidates of each name.
fn all_listed(
    alloc: Global,
    problem: &Problem<'_>,
    names: &[Name],
) -> Result<Seq<Seq<usize>>, AllocError>
    ensures { IfOk result (λ rows. AreListed problem.now rows names.now) }
{
    let mut rows = Vec::with_capacity(alloc, names.len())?;
    for name in names {
        rows.push(listed(alloc, problem, name)?)?;
    }
    Ok(Seq::from_vec(rows))
}

/// The table of a problem.
pub fn table_of(alloc: Global, problem: &Problem<'_>) -> Result<Tabled, AllocError>
    ensures { IfOk result
        (λ tabled. IsPictured problem.now tabled.names tabled.nodes tabled.table) }
{
    let mut gathering = Gathering::new(alloc);
    let lines = gathering.ask_lines(alloc, problem)?;
    let wants = gathering.ask_nodes(alloc, problem)?;
    let names = names_of(alloc, gathering.nodes())?;
    let numbers = numbers_of(alloc, names.as_slice(), gathering.nodes())?;
    let candidates = all_listed(alloc, problem, names.as_slice())?;
    let (nodes, requirements) = gathering.into_parts();
    match Table::new(numbers, requirements, candidates, wants, lines) {
        Some(table) => Ok(Tabled {
            names,
            nodes,
            table,
        }),
        None => unreachable!(),
    }
}
