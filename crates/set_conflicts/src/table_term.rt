// Terms over a table, of which conflicts of sets are made.

ghost use Rattle.std.specs.Prelude.{◌≡◌, IfOk, IsTrue};
ghost use Rattle.lists.specs.Bits.{LiesWithin};

use lists::{Bits, Seq};
use std::alloc::{AllocError, Global};
use std::marker::Model;

/// A node of a table with some places of releases of its name. In a clause it is a term.
#[derive(Drop)]
pub struct TableTerm {
    pub node: usize,
    pub places: Bits,
}

impl Model for TableTerm {
    ghost use Rattle.std.specs.Prelude.{ℕ};
    ghost use Rattle.search.specs.declared.term.Term.{Term};

    ghost Value = { Term ℕ ℕ };

    ghost view = { λ t. record { node = t.node; versions = t.places } };
}

impl TableTerm {
    /// The node.
    pub fn node(&self) -> usize
        ensures { result ≡ self.now.node }
    {
        self.node
    }

    /// The places, lent.
    pub fn set(&self) -> &Bits
        ensures { result.now ≡ self.now.versions }
    {
        &self.places
    }

    /// The places, from the least on.
    pub fn listed(&self, alloc: Global) -> Result<Seq<usize>, AllocError>
        ensures { IfOk result (λ places. places ≡ self.now.versions) }
    {
        self.set().places(alloc)
    }

    /// A copy of the term.
    pub fn copied(&self) -> Result<TableTerm, AllocError> {
        let places = self.places.clone()?;
        Ok(TableTerm {
            node: self.node,
            places,
        })
    }

    /// Whether the term is on the node, and has all of these places.
    pub fn is_at(&self, node: usize, places: &Bits) -> bool
        ensures node { IsTrue result → self.now.node ≡ node }
        ensures within { IsTrue result → LiesWithin places.now self.now.versions }
    {
        self.node() == node && places.lies_within(self.set())
    }

    /// Whether the term is on the other's node, and has all of its places.
    pub fn does_include(&self, other: &TableTerm) -> bool
        ensures node { IsTrue result → self.now.node ≡ other.now.node }
        ensures within { IsTrue result → LiesWithin other.now.versions self.now.versions }
    {
        self.is_at(other.node(), other.set())
    }
}
