// Lists of terms, of which conflicts are made.

use lists::Bits;
use set_conflicts::table_term::TableTerm;
use std::alloc::{AllocError, Global};

/// Copies terms.
pub fn copied(alloc: Global, terms: &[TableTerm]) -> Result<Vec<TableTerm>, AllocError> {
    let mut copy: Vec<TableTerm> = Vec::new(alloc);
    for term in terms {
        copy.push(term.copied()?)?;
    }
    Ok(copy)
}

/// A list of one term.
pub fn single(alloc: Global, node: usize, places: Bits) -> Result<Vec<TableTerm>, AllocError> {
    let mut terms: Vec<TableTerm> = Vec::new(alloc);
    terms.push(TableTerm { node, places })?;
    Ok(terms)
}

/// The place of the term on a node.
pub fn term_on(terms: &[TableTerm], node: usize) -> Option<usize> {
    for at in 0..terms.len() {
        if terms[at].node() == node {
            return Some(at);
        }
    }
    None
}

/// The set of the term on a node; empty where there is none.
pub fn set_on(alloc: Global, terms: &[TableTerm], node: usize) -> Result<Bits, AllocError> {
    for term in terms {
        if term.node() == node {
            let set = term.set().clone()?;
            return Ok(set);
        }
    }
    Ok(Bits::new(alloc))
}

/// Intersects the term on a node with a set; where there is none, adds it.
pub fn intersect(terms: &mut Vec<TableTerm>, node: usize, set: &Bits) -> Result<(), AllocError> {
    for at in 0..terms.len() {
        if let Some(term) = terms.get_mut(at) {
            if term.node == node {
                term.places.keep(set);
                return Ok(());
            }
        }
    }
    let places = set.clone()?;
    terms.push(TableTerm { node, places })?;
    Ok(())
}

/// Intersects terms with others on all nodes but this one, whose set it gives.
pub fn intersect_all(
    alloc: Global,
    terms: &mut Vec<TableTerm>,
    others: &[TableTerm],
    node: usize,
) -> Result<Bits, AllocError> {
    let mut set = Bits::new(alloc);
    for term in others {
        if term.node() == node {
            set.join(term.set())?;
        } else {
            intersect(terms, term.node(), term.set())?;
        }
    }
    Ok(set)
}
