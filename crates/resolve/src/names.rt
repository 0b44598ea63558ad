// The names of nodes, in the order of their bytes.

ghost use Rattle.std.specs.Prelude.{◌≡◌, map, IfOk};
ghost use Rattle.std.specs.Cmp.Lexicographic.{slice_cmp};
ghost use Rattle.std.specs.List.{Contains};
ghost use Rattle.std.specs.List.Sorted.{IsStrictlySortedBy};
ghost use Rattle.std.specs.Ordering.{nat_cmp};
ghost use Rattle.problems.specs.Tied.Standing.{AllStand, Stands};

use lists::Seq;
use pep508::Name;
use problems::Node;
use std::alloc::{AllocError, Global};

/// The name of each node.
fn names_on(alloc: Global, nodes: &[Node]) -> Result<Vec<Name>, AllocError>
    ensures { IfOk result (λ names. names.items ≡ map (λ node. node.name) nodes.now) }
{
    let mut names = Vec::with_capacity(alloc, nodes.len())?;
    for node in nodes {
        names.push(node.name.clone()?)?;
    }
    Ok(names)
}

/// The names of the nodes, each once, in the order of their bytes.
pub(crate) fn names_of(alloc: Global, nodes: &[Node]) -> Result<Seq<Name>, AllocError>
    ensures rising { IfOk result (λ names. IsStrictlySortedBy (slice_cmp nat_cmp) names) }
    ensures whole { IfOk result (λ names. (node : _) → Contains nodes.now node
        → Contains names node.name) }
{
    let mut names = names_on(alloc, nodes)?;
    names.sort_unstable();
    names.dedup();
    Ok(Seq::from_vec(names))
}

/// The place of a name that is there.
fn number_of(names: &[Name], name: &Name) -> usize
    requires rising { IsStrictlySortedBy (slice_cmp nat_cmp) names.now }
    requires there { Contains names.now name.now }
    ensures { Stands names.now result name.now }
{
    match names.binary_search(name) {
        Ok(number) => number,
        Err(_) => unreachable!(),
    }
}

/// For each node the place of its name.
pub(crate) fn numbers_of(
    alloc: Global,
    names: &[Name],
    nodes: &[Node],
) -> Result<Seq<usize>, AllocError>
    requires rising { IsStrictlySortedBy (slice_cmp nat_cmp) names.now }
    requires whole { (node : _) → Contains nodes.now node → Contains names.now node.name }
    ensures { IfOk result
        (λ numbers. AllStand names.now numbers (map (λ node. node.name) nodes.now)) }
{
    let mut numbers = Vec::with_capacity(alloc, nodes.len())?;
    for node in nodes {
        numbers.push(number_of(names, &node.name))?;
    }
    Ok(Seq::from_vec(numbers))
}
