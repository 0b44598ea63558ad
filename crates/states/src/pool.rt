// What the versions of a lock are chosen from.

ghost use Rattle.std.specs.Prelude.{◌≡◌, IfOk};
ghost use Rattle.states.specs.Locks.{given_of};
ghost use Rattle.states.specs.Pool.{whole};

use pep440::Version;
use pep508::{Environment, Name, ReqFile};
use resolve::Problem;
use snapshot::Snapshot;
use std::alloc::{AllocError, Global};
use std::collections::BTreeMap;
use std::marker::Model;

/// An index, and whether the kept version of a name is its only candidate.
pub struct Pool<'a> {
    pub snapshot: &'a Snapshot,
    pub only_kept: bool,
}

impl<'a> Drop for Pool<'a> {
    fn drop(self) {
        let Pool {
            snapshot: _,
            only_kept: _,
        } = self;
    }
}

impl<'a> Model for Pool<'a> {
    ghost use Rattle.std.specs.Coded.{codes};
    ghost use Rattle.markers.specs.Tied.MarkerCode.{tree_code};
    ghost use Rattle.states.specs.Pool.{PoolParts};

    ghost Value = { PoolParts };

    ghost coded = { Prim.hlevel (codes, tree_code) };

    ghost view = { λ p. record { index = p.snapshot.now; only_kept = p.only_kept } };
}

impl<'a> Pool<'a> {
    /// An index over which a name with a kept version has other candidates too.
    pub fn whole(snapshot: &'a Snapshot) -> Pool<'a>
        ensures { result ≡ whole snapshot.now }
    {
        Pool {
            snapshot,
            only_kept: false,
        }
    }

    /// The problem of the active lines in the environment, with the versions that are kept of an earlier
    /// lock.
    pub fn problem(
        &self,
        alloc: Global,
        lines: &ReqFile,
        environment: &Environment,
        kept: BTreeMap<Name, Version>,
    ) -> Result<Problem<'a>, AllocError>
        ensures { IfOk result
            (λ problem. problem ≡ given_of lines.now environment.now self.now kept.entries) }
    {
        let problem = Problem::new(alloc, lines, environment, self.snapshot, kept)?;
        Ok(problem.with_only_kept(self.only_kept))
    }

    /// The same pool.
    pub fn copy(&self) -> Pool<'a>
        ensures { result ≡ self.now }
    {
        Pool {
            snapshot: self.snapshot,
            only_kept: self.only_kept,
        }
    }
}
