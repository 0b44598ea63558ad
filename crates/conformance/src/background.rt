// What rows are answered with.

use crate::targets::{copies, unnamed};
use edits::{TargetName, Targets};
use journal::Session;
use markers::Environment;
use pep440::Version;
use snapshot::Snapshot;
use std::alloc::Global;

/// What earlier rows have set.
pub struct Background {
    /// The versions that sets are tried on, in rising order; equal ones stand together.
    pub candidates: Vec<Vec<Version>>,
    /// The JSON text of the environment.
    pub json: String,
    pub environment: Option<Environment>,
    /// The named targets that lines are locked for. Where there are none, they are locked for one of the
    /// empty name, in the environment.
    pub targets: Vec<(TargetName, Environment)>,
    /// The index that lines are locked over.
    pub index: Option<Snapshot>,
    /// The history that has begun.
    pub session: Option<Session>,
    /// The text of a lock.
    pub lock: String,
}

impl Drop for Background {
    fn drop(self) {
        let Background {
            candidates: _,
            json: _,
            environment: _,
            targets: _,
            index: _,
            session: _,
            lock: _,
        } = self;
    }
}

impl Background {
    /// What there is before the first row.
    pub fn new(alloc: Global) -> Background {
        Background {
            candidates: Vec::new(alloc),
            json: String::new(alloc),
            environment: None,
            targets: Vec::new(alloc),
            index: None,
            session: None,
            lock: String::new(alloc),
        }
    }

    /// The targets that lines are locked for.
    pub fn targets(&self, alloc: Global) -> Option<Targets> {
        if self.targets.is_empty() {
            let environment = self.environment.as_ref()?.clone().ok()?;
            return unnamed(alloc, environment).ok();
        }
        copies(alloc, self.targets.as_slice()).ok()
    }
}
