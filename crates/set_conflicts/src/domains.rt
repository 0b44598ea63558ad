// What is left of each node, and which nodes are needed.

ghost use Rattle.std.specs.Prelude.{◌≡◌, ◌<◌, ◌⊎◌, ℕ, [], List, IfOk, IfSome, IsTrue, MatchOption, true, length};
ghost use Rattle.lists.specs.Bits.{IsDifference, LiesWithin};
ghost use Rattle.search.specs.Rules.{Rules};
ghost use Rattle.search.specs.Solutions.{Pin};
ghost use Rattle.search.specs.Table.{candidates_of, name_of, rules_of};
ghost use Rattle.set_conflicts.specs.Tied.Domains.{Excludes, Holds, Keeps, Needs, mark_at, set_at};

use crate::flags::{flag, set_flag};
use crate::places::set_of;
use crate::table_term::TableTerm;
use lists::Bits;
use search::Table;
use std::alloc::{AllocError, Global};

/// The places that are left of each node, and whether each is needed.
#[derive(Drop)]
pub struct Domains {
    sets: Vec<Bits>,
    needed: Vec<bool>,
}

/// Takes places out of the set of a node.
fn cut_set(sets: &mut Vec<Bits>, node: usize, cut: &Bits)
    requires { node < length sets.old.items }
    ensures room { length sets.new.items ≡ length sets.old.items }
    ensures own { IsDifference (set_at sets.new.items node) (set_at sets.old.items node) cut.now }
    ensures others { (other : ℕ) → (other ≡ node → ⊥)
        → set_at sets.new.items other ≡ set_at sets.old.items other }
{
    sets[node].cut(cut);
}

/// Marks a node.
fn mark(needed: &mut Vec<bool>, node: usize)
    requires { node < length needed.old.items }
    ensures { (other : ℕ) → mark_at needed.new.items other ≡ true
        → (other ≡ node) ⊎ (mark_at needed.old.items other ≡ true) }
{
    needed[node] = true;
}

/// For each node the candidates of its name.
fn all_sets(alloc: Global, table: &Table) -> Result<Vec<Bits>, AllocError>
    ensures { IfOk result (λ sets. (node : ℕ) → node < length sets.items
        → LiesWithin (candidates_of table.now (name_of table.now node))
        (set_at sets.items node)) }
{
    let mut sets: Vec<Bits> = Vec::new(alloc);
    for node in 0..table.node_count() {
        let places = table.candidates(table.name_of(node));
        sets.push(set_of(alloc, places)?)?;
    }
    Ok(sets)
}

impl Domains {
    /// All candidates are left, and no node is needed.
    pub fn start(alloc: Global, table: &Table) -> Result<Domains, AllocError>
        ensures { IfOk result (Keeps (rules_of table.now) []) }
    {
        let sets = all_sets(alloc, table)?;
        let needed = vec![in alloc; false; table.node_count()]?;
        Ok(Domains { sets, needed })
    }

    /// Whether a node is needed.
    pub fn is_needed(&self, node: usize) -> bool
        ensures { result ≡ mark_at self.now.needed.items node }
    {
        flag(self.needed.as_slice(), node)
    }

    /// Whether a node is needed, and what is left of it lies within the set.
    fn does_hold(&self, node: usize, set: &Bits) -> bool
        ensures { IsTrue result → Holds self.now node set.now }
    {
        match self.sets.get(node) {
            None => false,
            Some(left) => flag(self.needed.as_slice(), node) && left.lies_within(set),
        }
    }

    /// Whether a term is satisfied: its node is needed, and what is left of it has its places
    /// alone.
    pub fn do_satisfy(&self, term: &TableTerm) -> bool
        ensures { IsTrue result → Holds self.now term.now.node term.now.versions }
    {
        self.does_hold(term.node(), term.set())
    }

    /// What is left of a node.
    pub fn left(&self, node: usize) -> Option<&Bits> {
        self.sets.get(node)
    }

    /// The set of a node that is needed.
    pub fn needed_set(&self, node: usize) -> Option<&Bits>
        ensures { IfSome result (λ set. Holds self.now node set.now
            × (set.now ≡ set_at self.now.sets.items node)) }
    {
        if !self.is_needed(node) {
            return None;
        }
        self.sets.get(node)
    }

    /// Whether a node is needed and has nothing left.
    pub fn is_exhausted(&self, node: usize) -> bool {
        match self.needed_set(node) {
            Some(left) => left.is_empty(),
            None => false,
        }
    }

    /// Takes places out of what is left of a node.
    pub fn cut(&mut self, node: usize, cut: &Bits)
        ensures { (rules : Rules ℕ ℕ ℕ ℕ) (pins : List (Pin ℕ ℕ)) → Excludes rules pins node cut.now
            → Keeps rules pins self.old → Keeps rules pins self.new }
    {
        if node < self.sets.len() {
            cut_set(&mut self.sets, node, cut);
        }
    }

    /// Gives places back that were taken out.
    pub fn restore(&mut self, term: &TableTerm) -> Result<(), AllocError> {
        if let Some(left) = self.sets.get_mut(term.node()) {
            left.join(term.set())?;
        }
        Ok(())
    }

    /// Marks a node as needed.
    pub fn need(&mut self, node: usize)
        ensures { (rules : Rules ℕ ℕ ℕ ℕ) (pins : List (Pin ℕ ℕ)) → Needs rules pins node
            → Keeps rules pins self.old → Keeps rules pins self.new }
    {
        if node < self.needed.len() {
            mark(&mut self.needed, node);
        }
    }

    /// Marks a node as needed no longer.
    pub fn unmark(&mut self, node: usize) {
        set_flag(&mut self.needed, node, false);
    }
}
