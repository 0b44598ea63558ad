// What is searched: a table, and the lists and sets that are worked out of it once.

ghost use Rattle.std.specs.Prelude.{◌<◌, length};

use lists::Bits;
use search::Table;
use set_conflicts::places::set_of;
use std::alloc::{AllocError, Global};

/// What a table says of its names and nodes, as lists and sets.
#[derive(Drop)]
pub struct TableSets {
    names: Vec<usize>,
    nodes: Vec<Vec<usize>>,
    requirers: Vec<Vec<usize>>,
    candidates: Vec<Bits>,
    admitted: Vec<Bits>,
}

/// The places that a requirement admits.
fn admitted_by(alloc: Global, table: &Table, requirement: usize) -> Result<Bits, AllocError>
    requires { requirement < length table.now.requirements }
{
    let mut set = Bits::new(alloc);
    let admits = table.requirement(requirement).admits.as_slice();
    for place in 0..admits.len() {
        if admits[place] {
            set.insert(place)?;
        }
    }
    Ok(set)
}

/// For each requirement the places that it admits.
fn admitted_sets(alloc: Global, table: &Table) -> Result<Vec<Bits>, AllocError> {
    let mut sets: Vec<Bits> = Vec::new(alloc);
    for requirement in 0..table.requirement_count() {
        sets.push(admitted_by(alloc, table, requirement)?)?;
    }
    Ok(sets)
}

/// For each name an empty list.
fn empty_lists(alloc: Global, count: usize) -> Result<Vec<Vec<usize>>, AllocError> {
    let mut lists: Vec<Vec<usize>> = Vec::new(alloc);
    for _ in 0..count {
        lists.push(Vec::new(alloc))?;
    }
    Ok(lists)
}

/// Appends a node to the list of a name, unless it came last.
fn append(lists: &mut Vec<Vec<usize>>, name: usize, node: usize) -> Result<(), AllocError> {
    let Some(list) = lists.get_mut(name) else {
        return Ok(());
    };
    if let Some(last) = list.last() {
        if *last == node {
            return Ok(());
        }
    }
    list.push(node)?;
    Ok(())
}

impl TableSets {
    /// The sets of a table.
    pub fn of(alloc: Global, table: &Table) -> Result<TableSets, AllocError> {
        let mut sets = TableSets {
            names: Vec::new(alloc),
            nodes: empty_lists(alloc, table.name_count())?,
            requirers: empty_lists(alloc, table.name_count())?,
            candidates: Vec::new(alloc),
            admitted: admitted_sets(alloc, table)?,
        };
        for node in 0..table.node_count() {
            let name = table.name_of(node);
            sets.add_node(alloc, table, node, name)?;
            for place in table.candidates(name) {
                sets.add_requirer(table, node, *place)?;
            }
        }
        Ok(sets)
    }

    /// Adds a node to those of its name.
    fn add_node(
        &mut self,
        alloc: Global,
        table: &Table,
        node: usize,
        name: usize,
    ) -> Result<(), AllocError> {
        self.names.push(name)?;
        self.candidates
            .push(set_of(alloc, table.candidates(name))?)?;
        append(&mut self.nodes, name, node)?;
        Ok(())
    }

    /// Adds a node to those that require something on each name on which its release does.
    fn add_requirer(&mut self, table: &Table, node: usize, place: usize) -> Result<(), AllocError> {
        for requirement in table.wants(node, place) {
            if *requirement < table.requirement_count() {
                append(&mut self.requirers, table.name_required(*requirement), node)?;
            }
        }
        Ok(())
    }
}

/// The list at a number; empty where there is none.
fn list_at(lists: &[Vec<usize>], at: usize) -> &[usize] {
    match lists.get(at) {
        Some(list) => list.as_slice(),
        None => &[],
    }
}

/// A table with its sets, and the allocator of the search.
#[derive(Clone, Copy)]
pub struct Instance<'a> {
    pub alloc: Global,
    pub table: &'a Table,
    pub sets: &'a TableSets,
}

impl<'a> Instance<'a> {
    /// The name of a node.
    pub fn name_of(&self, node: usize) -> Option<usize> {
        self.sets.names.get(node).copied()
    }

    /// The nodes of a name.
    pub fn nodes_of(&self, name: usize) -> &[usize] {
        list_at(self.sets.nodes.as_slice(), name)
    }

    /// The nodes of the name of a node.
    pub fn nodes_beside(&self, node: usize) -> &[usize] {
        match self.name_of(node) {
            Some(name) => self.nodes_of(name),
            None => &[],
        }
    }

    /// The nodes of the name that a requirement is on.
    pub fn nodes_on(&self, requirement: usize) -> &[usize] {
        if requirement < self.table.requirement_count() {
            return self.nodes_of(self.table.name_required(requirement));
        }
        &[]
    }

    /// The nodes some of whose releases require something on the name.
    pub fn requirers(&self, name: usize) -> &[usize] {
        list_at(self.sets.requirers.as_slice(), name)
    }

    /// The candidates of a node, in the order in which they are preferred.
    pub fn candidates(&self, node: usize) -> &[usize] {
        match self.name_of(node) {
            Some(name) => self.table.candidates(name),
            None => &[],
        }
    }

    /// The set of the candidates of a node.
    pub fn candidate_set(&self, node: usize) -> Option<&Bits> {
        self.sets.candidates.get(node)
    }

    /// The places that a requirement admits.
    pub fn admitted(&self, requirement: usize) -> Option<&Bits> {
        self.sets.admitted.get(requirement)
    }

    /// Whether a requirement is on a name.
    pub fn is_on(&self, requirement: usize, name: usize) -> bool {
        requirement < self.table.requirement_count()
            && self.table.name_required(requirement) == name
    }

    /// Whether two nodes are of one name.
    pub fn are_beside(&self, node: usize, other: usize) -> bool {
        match (self.name_of(node), self.name_of(other)) {
            (Some(one), Some(two)) => one == two,
            _ => false,
        }
    }

    /// The candidates of a node that a requirement doesn't admit.
    pub fn refused_by(&self, node: usize, requirement: usize) -> Result<Bits, AllocError> {
        let Some(candidates) = self.candidate_set(node) else {
            return Ok(Bits::new(self.alloc));
        };
        let mut refused = candidates.clone()?;
        if let Some(admitted) = self.admitted(requirement) {
            refused.cut(admitted);
        }
        Ok(refused)
    }

    /// Whether a release wants something on its own name that doesn't admit it.
    fn is_own_clash(&self, node: usize, name: usize, place: usize) -> bool {
        for requirement in self.table.wants(node, place) {
            if *requirement < self.table.requirement_count()
                && self.table.name_required(*requirement) == name
                && !self.table.does_admit(*requirement, place)
            {
                return true;
            }
        }
        false
    }

    /// The candidates of a node that don't admit themselves.
    pub fn own_clashes(&self, node: usize) -> Result<Bits, AllocError> {
        let mut set = Bits::new(self.alloc);
        let Some(name) = self.name_of(node) else {
            return Ok(set);
        };
        for place in self.table.candidates(name) {
            if self.is_own_clash(node, name, *place) {
                set.insert(*place)?;
            }
        }
        Ok(set)
    }
}
