// The nodes that a walk follows.

ghost use Rattle.std.specs.Prelude.{◌≡◌, ◌∷◌, [], IfOk, map};
ghost use Rattle.std.specs.Option.{option_copied};
ghost use Rattle.problems.specs.Rules.{nodes_of, with_extra};
ghost use Rattle.resolve.specs.Tied.Walking.{Follow};

use lists::Lent;
use pep440::Version;
use pep508::{Name, Requirement};
use problems::Problem;
use problems::parts::{NodeWants, Nodes};
use std::alloc::{AllocError, Global};

/// The nodes that were followed so far, and what is wanted at nodes.
pub(crate) struct Following<'q> {
    alloc: Global,
    pub(crate) wants: NodeWants<'q>,
    pub(crate) nodes: Nodes,
}

impl<'q> Drop for Following<'q> {
    fn drop(self) {
        let Following {
            alloc: _,
            wants: _,
            nodes: _,
        } = self;
    }
}

impl<'q> Following<'q> {
    pub(crate) fn new(alloc: Global, problem: &'q Problem<'q>) -> Following<'q>
        ensures problem { result.wants ≡ problem.now }
        ensures nodes { result.nodes ≡ [] }
    {
        Following {
            alloc,
            wants: NodeWants::new(alloc, problem),
            nodes: Nodes::new(alloc),
        }
    }

    /// Follows a node whose name has this version to what is wanted there, where it wasn't followed yet.
    fn follow(
        &mut self,
        version: &Version,
        name: &Name,
        extra: Option<&Name>,
        asks: &mut Lent<'q, Requirement>,
    ) -> Result<(), AllocError>
        ensures same { self.new.wants ≡ self.old.wants }
        ensures followed { IfOk result
            (λ _. Follow self.old.wants version.now
            (record { name = name.now; extra = option_copied extra.entry } ∷ []) self.old.nodes
            self.new.nodes asks.old asks.new) }
    {
        let before = self.nodes.as_slice().len();
        self.nodes.number_of(self.alloc, name, extra)?;
        if self.nodes.as_slice().len() > before {
            let wanted = self.wants.at(self.alloc, name, extra, version)?;
            asks.append(wanted)?;
        }
        Ok(())
    }

    /// Follows the nodes of a name with each of the extras.
    fn follow_extras(
        &mut self,
        version: &Version,
        name: &Name,
        extras: &[Name],
        asks: &mut Lent<'q, Requirement>,
    ) -> Result<(), AllocError>
        ensures same { self.new.wants ≡ self.old.wants }
        ensures followed { IfOk result
            (λ _. Follow self.old.wants version.now (map (with_extra name.now) extras.now)
            self.old.nodes self.new.nodes asks.old asks.new) }
    {
        for extra in extras {
            self.follow(version, name, Some(extra), asks)?;
        }
        Ok(())
    }

    /// Follows the nodes of a requirement whose name has this version.
    pub(crate) fn follow_all(
        &mut self,
        version: &Version,
        wanted: &Requirement,
        asks: &mut Lent<'q, Requirement>,
    ) -> Result<(), AllocError>
        ensures same { self.new.wants ≡ self.old.wants }
        ensures followed { IfOk result
            (λ _. Follow self.old.wants version.now (nodes_of wanted.now) self.old.nodes
            self.new.nodes asks.old asks.new) }
    {
        let name = wanted.name();
        self.follow(version, name, None, asks)?;
        self.follow_extras(version, name, wanted.extras(), asks)?;
        Ok(())
    }
}
