// What a search knows of its choices while it goes forward.

ghost use Rattle.std.specs.Prelude.{◌≡◌, ◌<◌, ℕ, IfOk, MatchOption, length, false};
ghost use Rattle.std.specs.Ordering.{nat_cmp};
ghost use Rattle.search.specs.Tied.Front.{IsFront};
ghost use Rattle.search.specs.Tied.Search.{taken_at, pins_of, NoneFree, IsLeastFree};
ghost use Rattle.search.specs.Solutions.{version_pinned};
ghost use Rattle.search.specs.Tied.Taken.{AreKnownFrames, TakesFirst};
ghost use Rattle.search.specs.Table.{rules_of};

use crate::clash::{do_any_clash, least_free};
use crate::needed_nodes::{follow_all, place_of, require};
use crate::node_set::NodeSet;
use crate::parts::{Frame, KnownBefore};
use crate::table::Table;
use crate::taken_places::{take_frame, taken_of};
use std::alloc::{AllocError, Global};

/// What is taken, the nodes that are needed under it, the requirements that count there, and
/// whether one of them clashes.
pub struct Front {
    taken: Vec<Option<usize>>,
    needed: NodeSet,
    required: NodeSet,
    clashes: bool,
}

impl Drop for Front {
    fn drop(self) {
        let Front {
            taken: _,
            needed: _,
            required: _,
            clashes: _,
        } = self;
    }
}

impl Front {
    /// The front of frames, worked out anew.
    pub fn of(alloc: Global, table: &Table, frames: &[Frame]) -> Result<Front, AllocError>
        requires { AreKnownFrames (length table.now.candidates) frames.now }
        ensures front { IfOk result (λ front. IsFront table.now front) }
        ensures same { IfOk result (λ front. (n : ℕ)
            → taken_at front.taken.items n ≡ version_pinned nat_cmp (pins_of frames.now) n) }
    {
        let taken = taken_of(alloc, table, frames)?;
        let mut needed = NodeSet::new(alloc, table.node_count())?;
        let mut required = NodeSet::new(alloc, table.requirement_count())?;
        let known_before = KnownBefore {
            last_taken: 0,
            nodes: 0,
            required: 0,
        };
        require(table, &mut needed, &mut required, table.lines())?;
        follow_all(
            table,
            taken.as_slice(),
            &mut needed,
            &mut required,
            known_before,
        )?;
        let clashes = do_any_clash(table, taken.as_slice(), required.as_slice(), known_before);
        Ok(Front {
            taken,
            needed,
            required,
            clashes,
        })
    }

    /// Whether something that is required contradicts what is taken.
    pub fn clashes(&self) -> bool
        ensures { result ≡ self.now.clashes }
    {
        self.clashes
    }

    /// The place that is taken for a name.
    pub fn taken_on(&self, name: usize) -> Option<usize>
        ensures { result ≡ taken_at self.now.taken.items name }
    {
        place_of(self.taken.as_slice(), name)
    }

    /// The least name of the needed nodes that is not taken.
    pub fn least_free(&self, table: &Table) -> Option<usize>
        requires { IsFront table.now self.now }
        ensures { MatchOption result (NoneFree (rules_of table.now) (taken_at self.now.taken.items)
            self.now.needed.members)
            (λ n. IsLeastFree (rules_of table.now) (taken_at self.now.taken.items)
            self.now.needed.members n) }
    {
        least_free(table, self.taken.as_slice(), self.needed.as_slice())
    }

    /// Takes the choice of a frame, and follows what this adds to what was known.
    pub fn enter(&mut self, table: &Table, frame: Frame) -> Result<(), AllocError>
        requires known { frame.name < length table.now.candidates }
        requires front { IsFront table.now self.old }
        requires fits { self.old.clashes ≡ false }
        ensures front { IfOk result (λ _. IsFront table.now self.new) }
        ensures taken { IfOk result
            (λ _. TakesFirst self.old.taken.items self.new.taken.items frame) }
    {
        let known_before = KnownBefore {
            last_taken: frame.name,
            nodes: self.needed.len(),
            required: self.required.len(),
        };
        take_frame(&mut self.taken, frame);
        follow_all(
            table,
            self.taken.as_slice(),
            &mut self.needed,
            &mut self.required,
            known_before,
        )?;
        self.clashes = do_any_clash(
            table,
            self.taken.as_slice(),
            self.required.as_slice(),
            known_before,
        );
        Ok(())
    }
}
