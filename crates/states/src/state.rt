// States.

ghost use Rattle.std.specs.Prelude.{◌≡◌, IfOk, MatchOption};
ghost use Rattle.states.specs.State.{IsOfParts, IsState};
ghost use Rattle.states.specs.StateParts.{StateParts, digest_of};

pub(crate) mod fit;
mod joined_targets;
pub(crate) mod lock_for_lines;
pub(crate) mod reach;

use crate::state::fit::state_of;
use crate::state::joined_targets::joined;
use crate::target::Target;
use crate::targets::Targets;
use lists::{Faithful, Seq};
use pep508::laws::a_file_reads_as_lines;
use pep508::{Line, ReqFile};
use pylock::Lock;
use std::alloc::{AllocError, Global};
use std::marker::Model;

/// A requirements file and its targets, each an environment with the lock that belongs to the file there.
/// In a clause it is the list of the lines and that of the targets.
pub struct State {
    lines: ReqFile,
    targets: Seq<Target>,
}

impl Drop for State {
    fn drop(self) {
        let State {
            lines: _,
            targets: _,
        } = self;
    }
}

impl Model for State {
    ghost use Rattle.states.specs.StateParts.{StateParts};
    ghost use Rattle.states.specs.State.{IsState};

    ghost Value = { StateParts };

    ghost view = { λ s. record {
      lines = s.lines;
      targets = s.targets;
    } };

    ghost invariant = { λ s. IsState (record {
      lines = s.lines;
      targets = s.targets;
    }) };
}

impl State {
    /// The state of these lawful parts.
    pub fn from_lawful(lines: ReqFile, targets: Seq<Target>) -> State
        requires { IsState (record { lines = lines; targets = targets }) }
        ensures { result ≡ record { lines = lines; targets = targets } }
    {
        State { lines, targets }
    }

    /// The state of these parts, the locks in the order of the targets; `None` where they make none: where
    /// there are more or fewer locks than targets, two locks have different digests, an active line
    /// isn't met by an entry of each lock, a name of a dependency isn't an entry's of that lock, an entry
    /// isn't reached from an active line, or a lock names another environment.
    pub fn new(
        alloc: Global,
        lines: ReqFile,
        targets: Targets,
        locks: Seq<Lock>,
    ) -> Result<Option<State>, AllocError>
        ensures { IfOk result (λ made. MatchOption made
            ((state : StateParts) → IsOfParts lines targets locks state → IsState state → ⊥)
            (IsOfParts lines targets locks)) }
    {
        let Some(targets) = joined(alloc, targets, locks)? else {
            return Ok(None);
        };
        state_of(alloc, lines, targets)
    }

    /// The lines and the targets, each moved out of the state.
    pub fn into_parts(self) -> (ReqFile, Seq<Target>)
        ensures lines { result.0 ≡ self.lines }
        ensures targets { result.1 ≡ self.targets }
    {
        let State { lines, targets } = self;
        (lines, targets)
    }

    /// The lines of the requirements file.
    pub fn lines(&self) -> &ReqFile
        ensures { result.now ≡ self.now.lines }
    {
        &self.lines
    }

    /// The targets, by the bytes of their names. There is one at least.
    pub fn targets(&self) -> &[Target]
        ensures { result.now ≡ self.now.targets }
    {
        self.targets.as_slice()
    }

    /// The SHA-256 digest of the index that the locks were made from.
    pub fn digest(&self) -> [u8; 32]
        ensures { result ≡ digest_of self.now.targets }
    {
        self.targets.as_slice()[0].lock.snapshot()
    }

    /// Puts lines and targets into the place of the state's own. Where they make a state, it has no
    /// refusal.
    pub fn replace(&mut self, lines: Seq<Line>, targets: Seq<Target>)
        requires { IsState (record { lines = lines; targets = targets }) }
        ensures { self.new ≡ record { lines = lines; targets = targets } }
    {
        a_file_reads_as_lines();
        self.lines = ReqFile::from_lines(lines);
        self.targets = targets;
    }

    /// What holds of every state.
    pub fn recall_invariant(&self)
        ensures { IsState self.now }
    {
        let _lines = &self.lines;
    }
}

impl Clone for State {
    ghost is_clone = { λ s t. t ≡ s };

    fn clone(&self) -> Result<State, AllocError> {
        let lines = self.lines.clone()?;
        let targets = self.targets.clone()?;
        Ok(State { lines, targets })
    }
}

impl Faithful for State {
    ghost clone_is_source = { λ x y h. h };
}
