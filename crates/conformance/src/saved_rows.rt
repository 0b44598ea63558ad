// Rows of saved histories.

use crate::notation::owned;
use crate::targets::{bytes_of, journal_of};
use edits::{Refusal, TargetName};
use journal::{Saved, Session};
use lists::Text;
use std::alloc::Global;
use std::collections::BTreeMap;

/// Opens what files hold.
fn opened(
    alloc: Global,
    requirements: &str,
    locks: &BTreeMap<TargetName, Text>,
    journal: &str,
) -> Result<Session, Refusal> {
    let locks = bytes_of(alloc, locks)?;
    let journal = journal_of(alloc, journal)?;
    Session::open(alloc, requirements.as_bytes(), &locks, &journal)
}

/// Saves the session, and opens what was saved: its place among the steps, and the lines of the journal.
pub fn saved(alloc: Global, session: &Session) -> Option<String> {
    let saved = session.save(alloc).ok()?;
    let (requirements, journal) = (saved.requirements.as_str(), saved.journal.as_str());
    let again = opened(alloc, requirements, &saved.locks, journal).ok()?;
    let (cursor, steps) = (again.cursor(), again.steps());
    let lines = journal.lines().count();
    format!(in alloc; "{cursor} of {steps}, {lines} lines").ok()
}

/// The text with `new` in the place of each `old`, which stands there.
fn altered_text(alloc: Global, text: &str, old: &str, new: &str) -> Option<String> {
    if !text.contains(old) {
        return None;
    }
    text.replace(alloc, old, new).ok()
}

/// The lock files with another text in that of a target.
fn altered_locks(
    alloc: Global,
    mut locks: BTreeMap<TargetName, Text>,
    target: &str,
    old: &str,
    new: &str,
) -> Option<BTreeMap<TargetName, Text>> {
    let name = TargetName::parse(alloc, target).ok()?;
    let altered = altered_text(alloc, locks.get(&name)?.as_str(), old, new)?;
    locks.insert(name, Text::from_string(altered)).ok()?;
    Some(locks)
}

/// What the saved files open as with another text in one of them: `lock` is the file of the empty name, and
/// `lock NAME` that of another one.
pub fn altered(
    alloc: Global,
    session: &Session,
    file: &str,
    old: &str,
    new: &str,
) -> Option<String> {
    let Saved {
        requirements,
        locks,
        journal,
    } = session.save(alloc).ok()?;
    let (requirements, journal) = (requirements.as_str(), journal.as_str());
    let answer = match file.split_once(' ').unwrap_or((file, "")) {
        ("requirements", _) => {
            let altered = altered_text(alloc, requirements, old, new)?;
            opened(alloc, altered.as_str(), &locks, journal)
        }
        ("lock", target) => {
            let altered = altered_locks(alloc, locks, target, old, new)?;
            opened(alloc, requirements, &altered, journal)
        }
        _ => {
            let altered = altered_text(alloc, journal, old, new)?;
            opened(alloc, requirements, &locks, altered.as_str())
        }
    };
    match answer {
        Ok(_) => owned(alloc, "opens"),
        Err(refusal) => format!(in alloc; "{refusal}").ok(),
    }
}
