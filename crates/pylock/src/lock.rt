// Locks.

ghost use Rattle.std.specs.Prelude.{◌≡◌, true};
ghost use Rattle.std.specs.List.{AllByRecursion};
ghost use Rattle.pylock.specs.Locks.{IsLock, are_entries, lock_of};
ghost use Rattle.pylock.specs.Packages.{IsPackage};

use crate::entry::Entry;
use lists::{Faithful, Seq, Text, rises};
use std::alloc::AllocError;
use std::marker::Model;

/// A lock (PEP 751): what is to be installed in one environment. In a clause it is the marker text
/// of the environment, the digest of the index and the list of entries.
#[derive(Debug)]
pub struct Lock {
    environment: Text,
    snapshot: [u8; 32],
    entries: Seq<Entry>,
}

impl Drop for Lock {
    fn drop(self) {
        let Lock {
            environment: _,
            snapshot: _,
            entries: _,
        } = self;
    }
}

impl Model for Lock {
    ghost use Rattle.pylock.specs.Locks.{IsLock, LockParts};

    ghost Value = { LockParts };

    ghost view = { λ l. record {
      environment = l.environment;
      snapshot = l.snapshot;
      entries = l.entries;
    } };

    ghost invariant = { λ l. IsLock (record {
      environment = l.environment;
      snapshot = l.snapshot;
      entries = l.entries;
    }) };
}

/// What holds of the entries: each of them is lawful.
fn recall_invariants(entries: &[Entry])
    ensures { AllByRecursion IsPackage entries.now }
{
    for place in 0..entries.len() {
        let entry = &entries[place];
        entry.recall_invariant();
    }
}

impl Lock {
    /// The lock of these parts; `None` exactly where the entries don't rise by the bytes of their
    /// names.
    pub fn new(environment: Text, snapshot: [u8; 32], entries: Seq<Entry>) -> Option<Lock>
        ensures { result ≡ lock_of (record {
          environment = environment;
          snapshot = snapshot;
          entries = entries;
        }) }
    {
        if rises(entries.as_slice()) {
            return Some(Lock::in_order(environment, snapshot, entries));
        }
        None
    }

    /// The lock of these parts, of which the entries are in order. It has no refusal.
    pub fn in_order(environment: Text, snapshot: [u8; 32], entries: Seq<Entry>) -> Lock
        requires { are_entries entries ≡ true }
        ensures { result ≡ record {
          environment = environment;
          snapshot = snapshot;
          entries = entries;
        } }
    {
        recall_invariants(entries.as_slice());
        Lock {
            environment,
            snapshot,
            entries,
        }
    }

    /// The text of the environment, the digest of the index and the entries, each moved out of the lock.
    pub fn into_parts(self) -> (Text, [u8; 32], Seq<Entry>)
        ensures environment { result.0 ≡ self.environment }
        ensures snapshot { result.1 ≡ self.snapshot }
        ensures entries { result.2 ≡ self.entries }
    {
        let Lock {
            environment,
            snapshot,
            entries,
        } = self;
        (environment, snapshot, entries)
    }

    /// The text of the marker that holds in the environment of the lock.
    pub fn environment(&self) -> &str
        ensures { result.now ≡ self.now.environment }
    {
        self.environment.as_str()
    }

    /// The SHA-256 digest of the index that the lock was made from.
    pub fn snapshot(&self) -> [u8; 32]
        ensures { result ≡ self.now.snapshot }
    {
        self.snapshot
    }

    /// The entries, in the order of their names.
    pub fn entries(&self) -> &[Entry]
        ensures { result.now ≡ self.now.entries }
    {
        self.entries.as_slice()
    }

    /// What holds of every lock.
    pub fn recall_invariant(&self)
        ensures { IsLock self.now }
    {
        let _snapshot = &self.snapshot;
    }
}

impl Clone for Lock {
    ghost is_clone = { λ l m. m ≡ l };

    fn clone(&self) -> Result<Lock, AllocError> {
        let environment = self.environment.clone()?;
        let entries = self.entries.clone()?;
        Ok(Lock {
            environment,
            snapshot: self.snapshot,
            entries,
        })
    }
}

impl Faithful for Lock {
    ghost clone_is_source = { λ x y h. h };
}
