// Markers.

ghost use Rattle.lists.specs.Answers.{Answers};
ghost use Rattle.std.specs.Prelude.{◌≡◌, ◌++◌, IfOk};
ghost use Rattle.std.specs.Option.{option_copied};
ghost use Rattle.markers.specs.Faults.{memory_fault, one_line};
ghost use Rattle.markers.specs.Marker.{holds, marker_of};
ghost use Rattle.markers.specs.MarkerExtras.{extras_among, extras_in};
ghost use Rattle.markers.specs.MarkerHolds.{all_hold, any_holds};
ghost use Rattle.markers.specs.MarkerRelations.{relations_among, relations_in};
ghost use Rattle.markers.specs.MarkerTree.{all_of, any_of, atom as atom_tree, trees_of};
ghost use Rattle.markers.specs.declared.fault.Cause.TheVariants.{OutOfMemory};

use crate::environment::Environment;
use crate::fault::{Cause, Fault};
use crate::marker_atom::{Atom as MarkerAtom, CachedRelation};
use crate::marker_reader::tree_of;
use crate::marker_token::is_too_deep;
use crate::name::Name;
use lists::{Faithful, Lent, Seq};
use std::alloc::{AllocError, Global};
use std::marker::Model;

/// A condition on an environment (PEP 508, "Environment Markers"). In a clause it is its tree.
#[cycle(marker)]
#[derive(Drop)]
pub struct Marker {
    node: Node,
}

/// What a marker, or a part of one, consists of.
#[cycle(marker)]
#[derive(Drop)]
enum Node {
    Atom(MarkerAtom),
    /// The members joined by `and`.
    All(Vec<Marker>),
    /// The members joined by `or`.
    Any(Vec<Marker>),
}

impl Model for Marker {
    ghost use Rattle.markers.specs.Tied.MarkerCode.{tree_code};
    ghost use Rattle.markers.specs.MarkerTree.{Tree};
    ghost use Rattle.markers.specs.Tied.MarkerSize.{tree_size};

    ghost Value = { Tree };

    ghost coded = { tree_code };

    ghost use Rattle.markers.specs.Tied.MarkerView.{tree_of_node};

    ghost view = { λ m. tree_of_node m.node };

    ghost size = { tree_size };

    ghost use Rattle.markers.specs.Tied.MarkerFalls.{depth_le-tree_size};

    ghost size_decreases = { λ m h. depth_le-tree_size m.node };
}

/// The items, with no more room than they need: most lists have one member.
fn fitted(members: Seq<Marker>) -> Vec<Marker>
    ensures { result.items ≡ members }
{
    let mut items = members.into_vec();
    items.shrink_to_fit();
    items
}

impl Marker {
    pub(crate) fn atom(atom: MarkerAtom) -> Marker
        ensures { result ≡ atom_tree atom }
    {
        Marker {
            node: Node::Atom(atom),
        }
    }

    /// The members joined by `and`.
    pub(crate) fn all(members: Seq<Marker>) -> Marker
        ensures { result ≡ all_of (trees_of members) }
    {
        Marker {
            node: Node::All(fitted(members)),
        }
    }

    /// The members joined by `or`.
    pub(crate) fn any(members: Seq<Marker>) -> Marker
        ensures { result ≡ any_of (trees_of members) }
    {
        Marker {
            node: Node::Any(fitted(members)),
        }
    }

    /// Reads a marker, as `parse` does; the fault is its cause alone.
    #[tactic(auto, unfolding(crate::specs::Marker::marker_of))]
    pub fn read(alloc: Global, text: &str) -> Result<Marker, Cause>
        ensures { Answers OutOfMemory (marker_of text.now) result }
    {
        if is_too_deep(text.as_bytes()) {
            return Err(Cause::MarkerTooDeep);
        }
        tree_of(alloc, text.as_bytes())
    }

    /// Reads a marker (PEP 508, "Environment Markers").
    ///
    /// `MarkerTooDeep` where more than 64 parentheses are open at some place outside quotes, else
    /// `BadMarker` where the text isn't in the grammar.
    pub fn parse(alloc: Global, text: &str) -> Result<Marker, Fault>
        ensures { Answers memory_fault (one_line (marker_of text.now)) result }
    {
        match Marker::read(alloc, text) {
            Ok(marker) => Ok(marker),
            Err(cause) => Err(Fault::at(1, cause)),
        }
    }

    /// Whether the marker holds in an environment, with an extra or none. It has no refusal, and
    /// goes no deeper than the parentheses nest.
    #[cycle(holds)]
    pub fn holds(&self, environment: &Environment, extra: Option<&Name>) -> bool
        ensures { result ≡ holds self.now environment.now (option_copied extra.entry) }
    {
        match &self.node {
            Node::Atom(atom) => atom.holds(environment, extra),
            Node::All(members) => all_hold(members.as_slice(), environment, extra),
            Node::Any(members) => any_holds(members.as_slice(), environment, extra),
        }
    }

    /// The relations in the marker, in their order: what it asks of an environment.
    pub fn relations(&self, alloc: Global) -> Result<Lent<'_, CachedRelation>, AllocError>
        ensures { IfOk result (λ relations. relations ≡ relations_in self.now) }
    {
        let mut found = Lent::new(alloc);
        gather(self, &mut found)?;
        Ok(found)
    }

    /// The extras that the marker names, in their order: with another extra it holds where it holds with
    /// none.
    pub fn extras(&self, alloc: Global) -> Result<Lent<'_, Name>, AllocError>
        ensures { IfOk result (λ extras. extras ≡ extras_in self.now) }
    {
        let mut found = Lent::new(alloc);
        gather_extras(self, &mut found)?;
        Ok(found)
    }
}

#[cycle(holds)]
fn all_hold(members: &[Marker], environment: &Environment, extra: Option<&Name>) -> bool
    ensures { result ≡ all_hold (trees_of members.now) environment.now (option_copied extra.entry) }
{
    for member in members {
        if !member.holds(environment, extra) {
            return false;
        }
    }
    true
}

#[cycle(holds)]
fn any_holds(members: &[Marker], environment: &Environment, extra: Option<&Name>) -> bool
    ensures { result
        ≡ any_holds (trees_of members.now) environment.now (option_copied extra.entry) }
{
    for member in members {
        if member.holds(environment, extra) {
            return true;
        }
    }
    false
}

/// Puts the relations of a marker behind those that were found. It goes no deeper than the parentheses nest.
#[cycle(gather)]
fn gather<'m>(marker: &'m Marker, found: &mut Lent<'m, CachedRelation>) -> Result<(), AllocError>
    ensures { IfOk result (λ _. found.new ≡ found.old ++ relations_in marker.now) }
{
    match &marker.node {
        Node::Atom(MarkerAtom::Relation(relation)) => {
            found.push(relation)?;
            Ok(())
        }
        Node::Atom(MarkerAtom::Extra { .. }) => Ok(()),
        Node::All(members) => {
            gather_members(members.as_slice(), found)?;
            Ok(())
        }
        Node::Any(members) => {
            gather_members(members.as_slice(), found)?;
            Ok(())
        }
    }
}

#[cycle(gather)]
fn gather_members<'m>(
    members: &'m [Marker],
    found: &mut Lent<'m, CachedRelation>,
) -> Result<(), AllocError>
    ensures { IfOk result (λ _. found.new
        ≡ found.old ++ relations_among (trees_of members.now)) }
{
    for member in members {
        gather(member, found)?;
    }
    Ok(())
}

/// Puts the extras that a marker names behind those that were found. It goes no deeper than the parentheses nest.
#[cycle(gather_extras)]
fn gather_extras<'m>(marker: &'m Marker, found: &mut Lent<'m, Name>) -> Result<(), AllocError>
    ensures { IfOk result (λ _. found.new ≡ found.old ++ extras_in marker.now) }
{
    match &marker.node {
        Node::Atom(MarkerAtom::Relation(_)) => Ok(()),
        Node::Atom(MarkerAtom::Extra { equal: _, name }) => {
            if let Some(name) = name {
                found.push(name)?;
            }
            Ok(())
        }
        Node::All(members) => {
            gather_extras_of_members(members.as_slice(), found)?;
            Ok(())
        }
        Node::Any(members) => {
            gather_extras_of_members(members.as_slice(), found)?;
            Ok(())
        }
    }
}

#[cycle(gather_extras)]
fn gather_extras_of_members<'m>(
    members: &'m [Marker],
    found: &mut Lent<'m, Name>,
) -> Result<(), AllocError>
    ensures { IfOk result (λ _. found.new ≡ found.old ++ extras_among (trees_of members.now)) }
{
    for member in members {
        gather_extras(member, found)?;
    }
    Ok(())
}

/// A copy of a marker. It goes no deeper than the parentheses nest.
#[cycle(copy)]
fn copy(marker: &Marker) -> Result<Marker, AllocError>
    ensures { IfOk result (λ copy. copy ≡ marker.now) }
{
    let node = match &marker.node {
        Node::Atom(atom) => Node::Atom(atom.clone()?),
        Node::All(members) => Node::All(copy_members(members)?),
        Node::Any(members) => Node::Any(copy_members(members)?),
    };
    Ok(Marker { node })
}

#[cycle(copy)]
fn copy_members(members: &Vec<Marker>) -> Result<Vec<Marker>, AllocError>
    ensures { IfOk result (λ copies. copies.items ≡ members.now.items) }
{
    let mut copies = Vec::with_capacity(*members.allocator(), members.len())?;
    for member in members {
        copies.push(copy(member)?)?;
    }
    Ok(copies)
}

impl Clone for Marker {
    ghost is_clone = { λ m n. n ≡ m };

    fn clone(&self) -> Result<Marker, AllocError> {
        copy(self)
    }
}

impl Faithful for Marker {
    ghost clone_is_source = { λ x y h. h };
}
