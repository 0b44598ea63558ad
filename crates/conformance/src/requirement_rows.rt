// Rows of requirements.

use crate::background::Background;
use crate::growing_text::GrowingText;
use crate::marker_rows::told_fault;
use crate::specifier_rows::marks_of;
use pep508::{Cause, Requirement};
use std::alloc::Global;

/// The extras of a requirement.
fn extras(alloc: Global, requirement: &Requirement) -> Option<String> {
    let mut text = GrowingText::new(alloc);
    let mut separator = "";
    for extra in requirement.extras() {
        let name = extra.normal();
        write!(text, "{separator}{name}");
        separator = ",";
    }
    text.told()
}

/// Whether a requirement counts in the environment: `-` where it has no marker.
fn activity(background: &Background, requirement: &Requirement) -> Option<&'static str> {
    let is_active = requirement.is_active(background.environment.as_ref()?);
    match (requirement.marker().is_some(), is_active) {
        (true, true) => Some("1"),
        (true, false) => Some("0"),
        (false, true) => Some("-"),
        (false, false) => None,
    }
}

/// The name and the extras of a requirement, the number of its clauses, a mark for each candidate, and
/// whether it counts.
pub fn told(alloc: Global, background: &Background, requirement: &Requirement) -> Option<String> {
    let name = requirement.name().normal();
    let extras = extras(alloc, requirement)?;
    let set = requirement.specifiers();
    let count = set.clauses().len();
    let marks = marks_of(alloc, set, background.candidates.as_slice(), "")?;
    let activity = activity(background, requirement)?;
    let mut text = GrowingText::new(alloc);
    write!(text, "{name} [{extras}] {count} {marks} {activity}");
    text.told()
}

/// A requirement, or why there is none.
pub fn requirement(alloc: Global, background: &Background, text: &str) -> Option<String> {
    match Requirement::parse(alloc, text) {
        Ok(requirement) => told(alloc, background, &requirement),
        Err(fault) => told_fault(alloc, fault),
    }
}

/// `1` for each text that is a requirement, and `0` for each that is refused.
pub fn requirements(alloc: Global, texts: &[String]) -> Option<String> {
    let mut marks = GrowingText::new(alloc);
    for text in texts {
        match Requirement::read(alloc, text.as_str()) {
            Ok(_) => marks.push('1'),
            Err(Cause::OutOfMemory) => marks.miss(),
            Err(_) => marks.push('0'),
        }
    }
    marks.told()
}
