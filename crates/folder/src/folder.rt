// A folder as a save sees it: what it holds, and what a stop at any moment may leave of it.

ghost use Rattle.std.specs.Prelude.{◌≡◌, ◌≤◌, Option, ℕ, IfSome, IsSome, OnErr, OnOk, [], ◌∷◌};
ghost use Rattle.folder.specs.Held.{Held, cleared, removed, renamed, staged, IsSameBut};
ghost use Rattle.folder.specs.Calls.{Elapses, Follows, HasCause, IsDone, IsDoneOrNot, IsSame};
ghost use Rattle.folder.specs.declared.folder.WriteFault.TheVariants.{OutOfMemory, Unwritten};

use std::alloc::AllocError;

/// Why a file can't be written, renamed or removed.
#[derive(Clone, Copy, Debug, Drop, PartialEq, Eq)]
pub enum WriteFault {
    OutOfMemory,
    Unwritten,
}

impl From<AllocError> for WriteFault {
    ghost from_gives = { λ _ fault. fault ≡ OutOfMemory };

    fn from(_error: AllocError) -> WriteFault {
        WriteFault::OutOfMemory
    }
}

/// Files by their names. Each has a place, and a name beside it under which it is written first.
pub trait Folder {
    /// What the files hold, or nothing where that isn't known, as of a real disk.
    ghost held: { Self → Option Held };

    /// What a stop at this moment may leave.
    ghost may_leave: { Self → Held → Type 0 };

    /// The moment, as a number that doesn't fall.
    ghost moment: { Self → ℕ };

    /// What a stop at some moment from that one on might have left, during a call or between two.
    ghost left_since: { Self → ℕ → Held → Type 0 };

    /// How often a read or a write has failed.
    ghost faults: { Self → ℕ };

    /// Writes a file beside its place, whole. A fault or a stop may leave anything there, and changes nothing else.
    fn stage(&mut self, name: &str, bytes: &[u8]) -> Result<(), WriteFault>
        ensures done { OnOk result
            (Follows held may_leave (IsDone (staged name.now bytes.now)) self.old self.new) }
        ensures fault { OnErr result
            (Follows held may_leave (IsSameBut (name.now ∷ [])) self.old self.new) }
        ensures time { Elapses moment left_since may_leave (IsSameBut (name.now ∷ []))
            self.old self.new }
        ensures cause { HasCause held faults self.old self.new result Unwritten };

    /// Puts what stands beside a file's place into it, at once. Where it can't, all stays as it was.
    fn rename(&mut self, name: &str) -> Result<(), WriteFault>
        requires { IfSome (held self.old) (λ h. IsSome (h.beside name.now)) }
        ensures done { OnOk result
            (Follows held may_leave (IsDone (renamed name.now)) self.old self.new) }
        ensures fault { OnErr result (Follows held may_leave IsSame self.old self.new) }
        ensures time { Elapses moment left_since may_leave (IsDoneOrNot (renamed name.now))
            self.old self.new }
        ensures cause { HasCause held faults self.old self.new result Unwritten };

    /// Removes a file from its place, at once. One that isn't there is gone. Where it can't, all stays as it was.
    fn remove(&mut self, name: &str) -> Result<(), WriteFault>
        ensures done { OnOk result
            (Follows held may_leave (IsDone (removed name.now)) self.old self.new) }
        ensures fault { OnErr result (Follows held may_leave IsSame self.old self.new) }
        ensures time { Elapses moment left_since may_leave (IsDoneOrNot (removed name.now))
            self.old self.new }
        ensures cause { HasCause held faults self.old self.new result Unwritten };

    /// Removes what stands beside a file's place, at once. Where it can't, it stands there or is gone.
    fn remove_beside(&mut self, name: &str) -> Result<(), WriteFault>
        ensures done { OnOk result
            (Follows held may_leave (IsDone (cleared name.now)) self.old self.new) }
        ensures fault { OnErr result
            (Follows held may_leave (IsDoneOrNot (cleared name.now)) self.old self.new) }
        ensures time { Elapses moment left_since may_leave (IsDoneOrNot (cleared name.now))
            self.old self.new }
        ensures cause { HasCause held faults self.old self.new result Unwritten };

    /// This moment is one of those since an earlier one.
    ghost counts_now: { (folder : Self) (t : ℕ) (c : Held) → t ≤ moment folder
        → may_leave folder c → left_since folder t c };

    /// Since this moment there is no other.
    ghost only_now: { (folder : Self) (c : Held) → left_since folder (moment folder) c
        → may_leave folder c };
}
