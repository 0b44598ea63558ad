// A set of nodes in the order in which they came.

ghost use Rattle.std.specs.Prelude.{◌≡◌, ◌<◌, ◌≤◌, ◌∷◌, [], IfOk, length};
ghost use Rattle.std.specs.List.{slice_index_or};
ghost use Rattle.search.specs.Tied.Nodes.{Nodes, IsMarked, IsGrown};
ghost use Rattle.search.specs.Ranges.{EachBelow};

use std::alloc::{AllocError, Global};
use std::marker::Model;

/// Distinct nodes, each less than the room of the set. A mark for each number tells members.
pub struct NodeSet {
    members: Vec<usize>,
    marks: Vec<bool>,
}

impl Model for NodeSet {
    ghost use Rattle.std.specs.Prelude.{length};
    ghost use Rattle.search.specs.Tied.Nodes.{Nodes, IsMarked};

    ghost Value = { Nodes };

    ghost view = { λ s. record { members = s.members.items; room = length s.marks.items } };

    ghost invariant = { λ s. IsMarked s.members.items s.marks.items };
}

impl Drop for NodeSet {
    fn drop(self) {
        let NodeSet {
            members: _,
            marks: _,
        } = self;
    }
}

impl NodeSet {
    /// The empty set.
    pub fn new(alloc: Global, room: usize) -> Result<NodeSet, AllocError>
        ensures { IfOk result (λ s. (s.members ≡ []) × (s.room ≡ room)) }
    {
        let marks = vec![in alloc; false; room]?;
        Ok(NodeSet {
            members: Vec::new(alloc),
            marks,
        })
    }

    /// How many members there are.
    pub fn len(&self) -> usize
        ensures len { result ≡ length self.now.members }
        ensures within { length self.now.members ≤ self.now.room }
    {
        self.members.len()
    }

    /// The members.
    pub fn as_slice(&self) -> &[usize]
        ensures members { result.now ≡ self.now.members }
        ensures within { EachBelow self.now.room result.now }
    {
        self.members.as_slice()
    }

    /// The member at a place.
    pub fn at(&self, place: usize) -> usize
        requires { place < length self.now.members }
        ensures member { result ≡ slice_index_or self.now.members place result }
        ensures within { result < self.now.room }
    {
        self.members[place]
    }

    /// Appends a node, unless it is a member.
    pub fn insert(&mut self, node: usize) -> Result<(), AllocError>
        requires { node < self.old.room }
        ensures { IfOk result (λ _. IsGrown self.old self.new (node ∷ [])) }
    {
        if self.marks[node] {
            return Ok(());
        }
        self.members.push(node)?;
        self.marks[node] = true;
        Ok(())
    }

    /// Appends each of these nodes, unless it is a member.
    pub fn insert_all(&mut self, nodes: &[usize]) -> Result<(), AllocError>
        requires { EachBelow self.old.room nodes.now }
        ensures { IfOk result (λ _. IsGrown self.old self.new nodes.now) }
    {
        for node in nodes {
            self.insert(*node)?;
        }
        Ok(())
    }
}
