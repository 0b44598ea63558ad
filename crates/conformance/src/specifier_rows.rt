// Rows of sets of specifiers.

use crate::background::Background;
use crate::growing_text::GrowingText;
use crate::notation::mark;
use crate::version_rows::told_fault;
use pep440::{SpecifierSet, Version};
use std::alloc::Global;

/// The clauses of a set, how many they are, and which properties it has; or why there is none.
pub fn set(alloc: Global, text: &str) -> Option<String> {
    let set = match SpecifierSet::parse(alloc, text) {
        Ok(set) => set,
        Err(fault) => return told_fault(alloc, fault),
    };
    let mut text = GrowingText::new(alloc);
    for clause in set.clauses() {
        let operator = clause.operator;
        let version = &clause.version;
        write!(text, "{operator:?} {version}; ");
    }
    let count = set.clauses().len();
    let (names_pre, pins) = (set.names_pre(), set.pins());
    write!(text, "{count} clauses, names_pre {names_pre}, pins {pins}");
    text.told()
}

/// The mark of each of the versions.
pub fn matched(alloc: Global, set: &str, versions: &[String]) -> Option<String> {
    let set = SpecifierSet::parse(alloc, set).ok()?;
    let mut marks = GrowingText::new(alloc);
    for version in versions {
        let version = Version::parse(alloc, version.as_str()).ok()?;
        marks.push(mark(set.matches(&version)));
    }
    marks.told()
}

/// The mark that all of these versions have.
fn mark_of_all(set: &SpecifierSet, versions: &[Version]) -> Option<char> {
    let matches = set.matches(versions.first()?);
    for version in versions {
        if set.matches(version) != matches {
            return None;
        }
    }
    Some(mark(matches))
}

/// The marks of the candidates, with `-` where the second text has one: equal candidates have one mark.
pub fn marks_of(
    alloc: Global,
    set: &SpecifierSet,
    candidates: &[Vec<Version>],
    left_out: &str,
) -> Option<String> {
    let mut marks = GrowingText::new(alloc);
    for (place, versions) in candidates.iter().enumerate() {
        let mark = match left_out.as_bytes().get(place) {
            Some(b'-') => '-',
            _ => mark_of_all(set, versions.as_slice())?,
        };
        marks.push(mark);
    }
    marks.told()
}

/// The marks of the candidates.
pub fn accepted(
    alloc: Global,
    background: &Background,
    set: &str,
    left_out: &str,
) -> Option<String> {
    let set = SpecifierSet::parse(alloc, set).ok()?;
    marks_of(alloc, &set, background.candidates.as_slice(), left_out)
}
