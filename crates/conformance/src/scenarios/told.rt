// What values are told as.

use crate::growing_text::GrowingText;
use crate::state_texts::push_versions;
use crate::targets::{bytes_of, journal_of};
use edits::{
    Change, DistributionFile, Entry, Environment, Line, ReqFile, Requirement, Snapshot, State,
};
use journal::{History, Plain, Reply, Resolver, Saved, Session, WholeHistory};
use lists::Seq;
use pep440::{SpecifierSet, Version};
use pep508::Name;
use refutations::{Choice, Refutation};
use resolve::{Answer, Problem};
use std::alloc::Global;

/// A value that is told in a text, with ample memory.
pub trait Tell: Drop {
    fn tell(&self, alloc: Global, text: &mut GrowingText);
}

impl Tell for () {
    fn tell(&self, _alloc: Global, _text: &mut GrowingText) {}
}

impl Tell for bool {
    fn tell(&self, _alloc: Global, text: &mut GrowingText) {
        write!(text, "{self}");
    }
}

impl Tell for [bool; 4] {
    fn tell(&self, _alloc: Global, text: &mut GrowingText) {
        write!(text, "{self:?}");
    }
}

impl<T: Tell> Tell for Option<T> {
    fn tell(&self, alloc: Global, text: &mut GrowingText) {
        match self {
            Some(value) => value.tell(alloc, text),
            None => text.push_str("none"),
        }
    }
}

impl<T: Tell> Tell for Seq<T> {
    fn tell(&self, alloc: Global, text: &mut GrowingText) {
        let mut separator = "";
        for item in self.as_slice() {
            text.push_str(separator);
            item.tell(alloc, text);
            separator = "; ";
        }
    }
}

impl Tell for Version {
    fn tell(&self, _alloc: Global, text: &mut GrowingText) {
        write!(text, "{self}");
    }
}

impl Tell for Name {
    fn tell(&self, _alloc: Global, text: &mut GrowingText) {
        text.push_str(self.normal());
    }
}

impl Tell for SpecifierSet {
    fn tell(&self, _alloc: Global, text: &mut GrowingText) {
        let clauses = self.clauses();
        write!(text, "{clauses:?}");
    }
}

impl Tell for Environment {
    fn tell(&self, alloc: Global, text: &mut GrowingText) {
        match self.marker_text(alloc) {
            Ok(marker) => text.push_str(marker.as_str()),
            Err(_) => text.miss(),
        }
    }
}

impl Tell for Line {
    fn tell(&self, _alloc: Global, text: &mut GrowingText) {
        match self.requirement() {
            Some(requirement) => {
                let (line, name) = (self.text(), requirement.name());
                write!(text, "{line:?} {name:?}");
            }
            None => text.miss(),
        }
    }
}

/// Its name, its extras, its clauses, and whether it has a marker.
impl Tell for Requirement {
    fn tell(&self, _alloc: Global, text: &mut GrowingText) {
        let (name, extras) = (self.name(), self.extras());
        let (clauses, is_marked) = (self.specifiers().clauses(), self.marker().is_some());
        write!(text, "{name:?} {extras:?} {clauses:?} {is_marked}");
    }
}

impl Tell for DistributionFile {
    fn tell(&self, _alloc: Global, text: &mut GrowingText) {
        write!(text, "{self:?}");
    }
}

impl Tell for ReqFile {
    fn tell(&self, alloc: Global, text: &mut GrowingText) {
        match self.bytes(alloc) {
            Ok(bytes) => write!(text, "{bytes:?}"),
            Err(_) => text.miss(),
        }
    }
}

impl Tell for Snapshot {
    fn tell(&self, alloc: Global, text: &mut GrowingText) {
        for name in ["a", "b-b", "c", "d", "x"] {
            match Name::parse(alloc, name) {
                Ok(name) => tell_releases(self, &name, text),
                Err(_) => text.miss(),
            }
        }
        let digest = self.digest();
        write!(text, "{digest:?}");
    }
}

/// Tells a name with the versions of its releases.
fn tell_releases(snapshot: &Snapshot, name: &Name, text: &mut GrowingText) {
    text.push_str(name.normal());
    for release in snapshot.releases(name) {
        let version = release.version();
        write!(text, " {version}");
    }
    text.push_str("; ");
}

impl Tell for Entry {
    fn tell(&self, _alloc: Global, text: &mut GrowingText) {
        let (name, version) = (self.name().normal(), self.version());
        let python = match self.requires_python() {
            Some(python) => Some(python.text()),
            None => None,
        };
        let dependencies = self.dependencies();
        let (sdist, wheels) = (self.sdist(), self.wheels());
        write!(
            text,
            "{name}={version} {python:?} {dependencies:?} {sdist:?} {wheels:?}"
        );
    }
}

impl Tell for State {
    fn tell(&self, alloc: Global, text: &mut GrowingText) {
        self.lines().tell(alloc, text);
        push_versions(text, self);
        let digest = self.digest();
        write!(text, " {digest:?}");
    }
}

/// Its splices, the entries that give way, each with the one that takes its place, and its digests.
impl Tell for Change {
    fn tell(&self, alloc: Global, text: &mut GrowingText) {
        let (splices, digests) = (self.splices(), self.digests());
        write!(text, "<{splices:?} {digests:?}");
        for change in self.entries() {
            text.push_str(" (");
            change.old.tell(alloc, text);
            text.push_str(" -> ");
            change.new.tell(alloc, text);
            text.push_str(")");
        }
        text.push_str(">");
    }
}

impl Tell for Reply {
    fn tell(&self, _alloc: Global, text: &mut GrowingText) {
        match self {
            Reply::Done(cursor) => write!(text, "ok {cursor}"),
            Reply::Same => text.push_str("same"),
            Reply::Refused(refusal) => write!(text, "{refusal}"),
        }
    }
}

/// The present state with its place among the steps, and the change of each step.
impl Tell for Session {
    fn tell(&self, alloc: Global, text: &mut GrowingText) {
        let steps = self.steps();
        tell_present(alloc, text, self.cursor(), steps, self.state());
        for step in 0..steps {
            self.change(step + 1).tell(alloc, text);
        }
    }
}

/// The same of a history of whole states.
impl Tell for WholeHistory {
    fn tell(&self, alloc: Global, text: &mut GrowingText) {
        let steps = self.steps();
        tell_present(alloc, text, self.cursor(), steps, self.state());
        for step in 0..steps {
            self.change(step + 1).tell(alloc, text);
        }
    }
}

fn tell_present(alloc: Global, text: &mut GrowingText, cursor: usize, steps: usize, state: &State) {
    write!(text, "{cursor} of {steps} ");
    state.tell(alloc, text);
}

/// What the files open as.
impl Tell for Saved {
    fn tell(&self, alloc: Global, text: &mut GrowingText) {
        let requirements = self.requirements.as_str().as_bytes();
        let Ok(locks) = bytes_of(alloc, &self.locks) else {
            text.miss();
            return;
        };
        let Ok(journal) = journal_of(alloc, self.journal.as_str()) else {
            text.miss();
            return;
        };
        match Session::open(alloc, requirements, &locks, &journal) {
            Ok(session) => session.tell(alloc, text),
            Err(_) => text.miss(),
        }
    }
}

impl<'a> Tell for Problem<'a> {
    fn tell(&self, alloc: Global, text: &mut GrowingText) {
        match Plain.resolve(alloc, self) {
            Ok(Answer::Solution(versions)) => {
                for (name, version) in &versions {
                    let name = name.normal();
                    write!(text, "({name} {version})");
                }
            }
            Ok(Answer::NoSolution) => text.push_str("no solution"),
            Err(_) => text.miss(),
        }
    }
}

impl Tell for Choice {
    fn tell(&self, _alloc: Global, text: &mut GrowingText) {
        let (name, extra, version) = (&self.name, &self.extra, &self.version);
        write!(text, "{name:?} {extra:?} {version}");
    }
}

impl Tell for Refutation {
    fn tell(&self, alloc: Global, text: &mut GrowingText) {
        for conflict in self.conflicts() {
            text.push_str("(");
            conflict.tell(alloc, text);
            text.push_str(")");
        }
    }
}
