// Refutations by conflicts of sets over the releases of a problem.

ghost use Rattle.std.specs.Prelude.{◌≡◌, IfOk};

use crate::placed::{PlacedConflicts, PlacedTerm};
use crate::set_refutation::{SetRefutation, SetTerm};
use lists::Seq;
use pep508::Name;
use problems::Problem;
use std::alloc::{AllocError, Global};
use std::marker::Model;

/// A list of conflicts of sets, with the places of their releases in an index. In a clause it is the list. The places tell where to
/// look for what a conflict rests on, and no more.
pub struct PlacedRefutation {
    refutation: SetRefutation,
    placed: PlacedConflicts,
}

impl Drop for PlacedRefutation {
    fn drop(self) {
        let PlacedRefutation {
            refutation: _,
            placed: _,
        } = self;
    }
}

impl Model for PlacedRefutation {
    ghost use Rattle.std.specs.Prelude.{List};
    ghost use Rattle.set_refutations.specs.SetRefutations.{TermParts};

    ghost Value = { List (List TermParts) };

    ghost view = { λ r. r.refutation };
}

impl PlacedRefutation {
    /// The refutation over the releases of a problem.
    pub fn new(
        alloc: Global,
        problem: &Problem<'_>,
        refutation: SetRefutation,
    ) -> Result<PlacedRefutation, AllocError>
        ensures { IfOk result (λ made. made ≡ refutation) }
    {
        let placed = PlacedConflicts::new(alloc, problem, refutation.conflicts())?;
        Ok(PlacedRefutation { refutation, placed })
    }

    /// The refutation of conflicts that were placed. Whether it is one, its grounds tell.
    pub fn of(
        alloc: Global,
        problem: &Problem<'_>,
        placed: PlacedConflicts,
    ) -> Result<PlacedRefutation, AllocError> {
        let refutation = SetRefutation::new(placed.versions(alloc, problem)?);
        Ok(PlacedRefutation { refutation, placed })
    }

    /// The list alone.
    pub fn list(&self) -> &SetRefutation
        ensures { result.now ≡ self.now }
    {
        &self.refutation
    }

    /// The number of a node among those of the conflicts; it gets one where it has none.
    pub fn number_of(
        &mut self,
        alloc: Global,
        name: &Name,
        extra: Option<&Name>,
    ) -> Result<usize, AllocError>
        ensures { self.new ≡ self.old }
    {
        self.placed.number_of(alloc, name, extra)
    }

    /// The conflicts, in their order.
    pub fn conflicts(&self) -> &[Seq<SetTerm>]
        ensures { result.now ≡ self.now }
    {
        self.refutation.conflicts()
    }

    /// The conflicts over the releases.
    pub fn placed(&self) -> &PlacedConflicts {
        &self.placed
    }

    /// The terms of each conflict over the releases.
    pub fn terms(&self) -> &[Vec<PlacedTerm>] {
        self.placed.as_slice()
    }
}
