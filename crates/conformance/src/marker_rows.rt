// Rows of names and markers.

use crate::background::Background;
use crate::growing_text::GrowingText;
use crate::notation::{mark, owned};
use markers::{Cause, Environment, Fault, Marker, Name, VersionFault};
use std::alloc::Global;

/// The text of a fault; none where memory was refused.
pub fn told_fault(alloc: Global, fault: Fault) -> Option<String> {
    match fault.cause {
        Cause::OutOfMemory => None,
        _ => fault.to_string(alloc).ok(),
    }
}

/// The normal form of a name, or why there is none.
pub fn name(alloc: Global, text: &str) -> Option<String> {
    match Name::parse(alloc, text) {
        Ok(name) => owned(alloc, name.normal()),
        Err(fault) => told_fault(alloc, fault),
    }
}

/// Whether a marker holds with each of the extras, `none` for no extra; or why there is none.
pub fn marker(
    alloc: Global,
    background: &Background,
    text: &str,
    extras: &[String],
) -> Option<String> {
    let environment = background.environment.as_ref()?;
    let marker = match Marker::parse(alloc, text) {
        Ok(marker) => marker,
        Err(fault) => return told_fault(alloc, fault),
    };
    let mut marks = GrowingText::new(alloc);
    for extra in extras {
        marks.push(mark(holds(alloc, &marker, environment, extra.as_str())?));
    }
    marks.told()
}

/// Whether a marker holds with an extra.
fn holds(alloc: Global, marker: &Marker, environment: &Environment, extra: &str) -> Option<bool> {
    if extra == "none" {
        return Some(marker.holds(environment, None));
    }
    let extra = Name::parse(alloc, extra).ok()?;
    Some(marker.holds(environment, Some(&extra)))
}

/// How want of memory is printed.
pub fn memory(alloc: Global) -> Option<String> {
    let version_fault = VersionFault::OutOfMemory;
    let fault = Fault {
        line: 1,
        cause: Cause::OutOfMemory,
    };
    let index_fault = snapshot::Fault::OutOfMemory;
    let lock_fault = pylock::Fault::OutOfMemory;
    format!(in alloc; "{version_fault}; {fault}; {index_fault}; {lock_fault}").ok()
}
