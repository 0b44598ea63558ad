// Nodes and their numbers.

ghost use Rattle.std.specs.Prelude.{◌≡◌, ◌≢◌, [], false, length, IfOk, MatchOption, OnErr, OnOk, Some};
ghost use Rattle.std.specs.List.{Contains, slice_get};
ghost use Rattle.std.specs.Option.{option_copied, option_map_or};
ghost use Rattle.problems.specs.Tied.NodeEquality.{is_asked, is_node};
ghost use Rattle.problems.specs.Tied.NodeNumbers.{number_at, number_in};
ghost use Rattle.problems.specs.Tied.Standing.{IsLonger, IsOnce, IsWith, Stands};
ghost use Rattle.problems.specs.declared.node.Node.{Node};

use crate::node::Node;
use lists::{Seq, copy_of};
use pep508::Name;
use std::alloc::{AllocError, Global};
use std::collections::BTreeMap;
use std::marker::Model;

/// Where a name's nodes stand: the one without an extra, and those with one.
struct Numbers {
    bare: Option<usize>,
    by_extra: BTreeMap<Name, usize>,
}

impl Drop for Numbers {
    fn drop(self) {
        let Numbers {
            bare: _,
            by_extra: _,
        } = self;
    }
}

impl Numbers {
    /// The number of the node with this extra or none.
    fn of(&self, extra: Option<&Name>) -> Option<usize>
        ensures { result ≡ number_in self.now (option_copied extra.entry) }
    {
        match extra {
            Some(extra) => self.by_extra.get(extra).copied(),
            None => self.bare,
        }
    }

    /// Lets the number of the node with this extra or none be found.
    fn list(&mut self, extra: Option<&Name>, number: usize) -> Result<(), AllocError>
        ensures listed { OnOk result
            (number_in self.new (option_copied extra.entry) ≡ Some number) }
        ensures others { (other : _) → other ≢ option_copied extra.entry
            → number_in self.new other ≡ number_in self.old other }
    {
        match extra {
            Some(extra) => {
                self.by_extra.insert(extra.clone()?, number)?;
            }
            None => self.bare = Some(number),
        }
        Ok(())
    }
}

/// A list of nodes, in which the number of a node is its place. A node is found by its name and then by
/// its extra; that it is what was looked for is seen of the node itself.
pub struct Nodes {
    nodes: Vec<Node>,
    by_name: BTreeMap<Name, Numbers>,
}

impl Drop for Nodes {
    fn drop(self) {
        let Nodes {
            nodes: _,
            by_name: _,
        } = self;
    }
}

impl Model for Nodes {
    ghost use Rattle.std.specs.Prelude.{List};
    ghost use Rattle.problems.specs.Tied.NodeNumbers.{AreListed};
    ghost use Rattle.problems.specs.declared.node.Node.{Node};

    ghost Value = { List Node };

    ghost view = { λ n. n.nodes.items };

    ghost invariant = { λ n. AreListed n.by_name n.nodes.items };
}

/// Whether the extra that may be there is the one that is asked for.
pub fn is_asked(extra: Option<&Name>, asked: Option<&Name>) -> bool
    ensures { result ≡ is_asked (option_copied extra.entry) (option_copied asked.entry) }
{
    match (extra, asked) {
        (None, None) => true,
        (Some(extra), Some(asked)) => extra.normal() == asked.normal(),
        _ => false,
    }
}

/// Whether a node is the one of this name with this extra or none.
fn is_node(node: &Node, name: &Name, extra: Option<&Name>) -> bool
    ensures { result ≡ is_node node.now name.now (option_copied extra.entry) }
{
    node.name.normal() == name.normal() && is_asked(node.extra.as_ref(), extra)
}

/// Lets a node be found by its name and its extra.
fn list(
    by_name: &mut BTreeMap<Name, Numbers>,
    alloc: Global,
    name: &Name,
    extra: Option<&Name>,
    number: usize,
) -> Result<(), AllocError>
    ensures listed { OnOk result
        (number_at by_name.new (record { name = name.now; extra = option_copied extra.entry })
        ≡ Some number) }
    ensures others { (other : Node)
        → other ≢ record { name = name.now; extra = option_copied extra.entry }
        → number_at by_name.new other ≡ number_at by_name.old other }
{
    match by_name.get_mut(name) {
        Some(numbers) => numbers.list(extra, number)?,
        None => {
            let mut numbers = Numbers {
                bare: None,
                by_extra: BTreeMap::new(alloc),
            };
            numbers.list(extra, number)?;
            by_name.insert(name.clone()?, numbers)?;
        }
    }
    Ok(())
}

impl Nodes {
    /// No nodes.
    pub fn new(alloc: Global) -> Nodes
        ensures { result ≡ [] }
    {
        Nodes {
            nodes: Vec::new(alloc),
            by_name: BTreeMap::new(alloc),
        }
    }

    /// The nodes, in the order of their numbers.
    pub fn into_seq(self) -> Seq<Node>
        ensures { result ≡ self }
    {
        let Nodes { nodes, by_name: _ } = self;
        Seq::from_vec(nodes)
    }

    /// The nodes, lent in the order of their numbers.
    pub fn as_slice(&self) -> &[Node]
        ensures { result.now ≡ self.now }
    {
        self.nodes.as_slice()
    }

    /// How many nodes there are. None is there twice.
    pub fn len(&self) -> usize
        ensures count { result ≡ length self.now }
        ensures once { IsOnce self.now }
    {
        self.nodes.len()
    }

    /// Whether the node of this number is the one that is looked for.
    fn is_at(&self, number: usize, name: &Name, extra: Option<&Name>) -> bool
        ensures { result ≡ option_map_or
            (λ node. is_node node name.now (option_copied extra.entry)) (slice_get self.now number)
            false }
    {
        match self.nodes.get(number) {
            Some(node) => is_node(node, name, extra),
            None => false,
        }
    }

    /// The number of a node that is there.
    fn find(&self, name: &Name, extra: Option<&Name>) -> Option<usize>
        ensures { MatchOption result
            (Contains self.now (record { name = name.now; extra = option_copied extra.entry }) → ⊥)
            (λ number. Stands self.now number (record {
              name = name.now;
              extra = option_copied
                  extra.entry;
            })) }
    {
        let number = self.by_name.get(name)?.of(extra)?;
        if self.is_at(number, name, extra) {
            return Some(number);
        }
        None
    }

    /// The number of a node, which is put behind the others where it isn't there.
    pub fn number_of(
        &mut self,
        alloc: Global,
        name: &Name,
        extra: Option<&Name>,
    ) -> Result<usize, AllocError>
        ensures longer { IfOk result (λ _. IsLonger self.old self.new) }
        ensures number { IfOk result
            (λ number. Stands self.new number (record {
              name = name.now;
              extra = option_copied
                  extra.entry;
            })) }
        ensures only { IfOk result
            (λ _. IsWith (record { name = name.now; extra = option_copied extra.entry }) self.old
            self.new) }
        ensures refused { OnErr result (self.new ≡ self.old) }
    {
        if let Some(number) = self.find(name, extra) {
            return Ok(number);
        }
        let number = self.nodes.len();
        list(&mut self.by_name, alloc, name, extra, number)?;
        self.nodes.push(Node {
            name: name.clone()?,
            extra: copy_of(extra)?,
        })?;
        Ok(number)
    }
}
