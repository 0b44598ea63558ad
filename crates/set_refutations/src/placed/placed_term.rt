// Terms as sets of releases.

use lists::Bits;
use problems::Node;
use problems::parts::is_asked;
use std::alloc::AllocError;

/// A node with some releases of its name, by their places in the index, newest first.
#[derive(Drop)]
pub struct PlacedTerm {
    pub node: Node,
    /// The node's number among those of the conflicts that it is for, if they have it.
    number: Option<usize>,
    pub places: Bits,
}

impl PlacedTerm {
    /// A node with these releases, for no conflict.
    pub fn new(node: Node, places: Bits) -> PlacedTerm {
        PlacedTerm {
            node,
            number: None,
            places,
        }
    }

    /// The same for conflicts among whose nodes it has this number, or none.
    pub(crate) fn numbered(node: Node, number: Option<usize>, places: Bits) -> PlacedTerm {
        PlacedTerm {
            node,
            number,
            places,
        }
    }

    /// The same node with these releases.
    pub fn over(&self, places: &Bits) -> Result<PlacedTerm, AllocError> {
        Ok(PlacedTerm {
            node: self.node.clone()?,
            number: self.number,
            places: places.clone()?,
        })
    }

    /// Whether its node has this number.
    pub fn is_at(&self, number: usize) -> bool {
        self.number == Some(number)
    }

    /// Whether the other one, which is for the same conflicts, is on the same node.
    pub fn is_beside(&self, other: &PlacedTerm) -> bool {
        match (self.number, other.number) {
            (Some(number), Some(another)) => number == another,
            _ => self.is_on(&other.node),
        }
    }

    /// Whether the other one has the same node and the same releases.
    pub fn is_same(&self, other: &PlacedTerm) -> bool {
        self.is_beside(other)
            && self.places.lies_within(&other.places)
            && other.places.lies_within(&self.places)
    }

    /// Whether it is on the node.
    pub fn is_on(&self, node: &Node) -> bool {
        self.node.name.normal() == node.name.normal()
            && is_asked(self.node.extra.as_ref(), node.extra.as_ref())
    }
}
