// States and changes as they are told.

use crate::growing_text::GrowingText;
use edits::{Change, DistributionFile, Entry, State, Target, TargetName};
use std::alloc::Global;

/// Pushes what is asked of Python, and each name that is needed.
fn push_needs(text: &mut GrowingText, entry: &Entry) {
    if let Some(python) = entry.requires_python() {
        let python = python.text();
        write!(text, "@{python}");
    }
    for name in entry.dependencies() {
        let name = name.normal();
        write!(text, ">{name}");
    }
}

/// Pushes the name and the version of an entry behind a space.
fn push_pin(text: &mut GrowingText, entry: &Entry) {
    let (name, version) = (entry.name().normal(), entry.version());
    write!(text, " {name}={version}");
}

/// Pushes the name of a named target behind a space, in brackets.
fn push_target(text: &mut GrowingText, name: &TargetName) {
    if !name.is_empty() {
        write!(text, " [{name}]");
    }
}

/// Pushes what is locked for each target, a space before each name: its version, what it asks of Python,
/// and behind a `>` each name that it needs.
pub fn push_lock(text: &mut GrowingText, state: &State) {
    for target in state.targets() {
        push_target(text, &target.name);
        for entry in target.lock.entries() {
            push_pin(text, entry);
            push_needs(text, entry);
        }
    }
}

fn push_pins(text: &mut GrowingText, target: &Target) {
    for entry in target.lock.entries() {
        push_pin(text, entry);
    }
}

/// Pushes the names and versions alone.
pub fn push_versions(text: &mut GrowingText, state: &State) {
    for target in state.targets() {
        push_target(text, &target.name);
        push_pins(text, target);
    }
}

fn push_file(text: &mut GrowingText, file: &DistributionFile) {
    let DistributionFile {
        name,
        url,
        size,
        sha256,
    } = file;
    write!(text, " {name} {url} {size} {sha256}");
}

fn push_files(text: &mut GrowingText, entry: &Entry) {
    if let Some(sdist) = entry.sdist().as_ref() {
        push_file(text, sdist);
    }
    for wheel in entry.wheels() {
        push_file(text, wheel);
    }
}

fn push_lock_files(text: &mut GrowingText, target: &Target) {
    push_target(text, &target.name);
    text.push_str(target.lock.environment());
    for entry in target.lock.entries() {
        let name = entry.name().normal();
        write!(text, "; {name}");
        push_files(text, entry);
    }
}

/// The environment of each lock, and the files of each of its entries.
pub fn files_text(alloc: Global, state: &State) -> Option<String> {
    let mut text = GrowingText::new(alloc);
    for target in state.targets() {
        push_lock_files(&mut text, target);
    }
    text.told()
}

/// Pushes the version of an entry, where there is one.
fn push_version(text: &mut GrowingText, entry: &Option<Entry>) {
    if let Some(entry) = entry.as_ref() {
        let version = entry.version();
        write!(text, "{version}");
    }
}

/// Pushes each splice: its place, the lines that give way, and those that come.
fn push_splices(text: &mut GrowingText, change: &Change) {
    for splice in change.splices() {
        let (place, old, new) = (splice.place, &splice.old, &splice.new);
        write!(text, "{place} {old:?} {new:?}; ");
    }
}

/// A change: its splices, each name, behind that of a named target, with the versions before and behind, and
/// whether the digest changes.
pub fn change_text(alloc: Global, change: &Change) -> Option<String> {
    let mut text = GrowingText::new(alloc);
    push_splices(&mut text, change);
    for entry in change.entries() {
        let (target, name) = (entry.target.as_str(), entry.name.normal());
        let mark = if target.is_empty() { "" } else { ":" };
        write!(text, "{target}{mark}{name} ");
        push_version(&mut text, &entry.old);
        text.push_str(">");
        push_version(&mut text, &entry.new);
        text.push_str("; ");
    }
    text.push_str(if change.digests().is_some() {
        "another digest"
    } else {
        "the same digest"
    });
    text.told()
}
